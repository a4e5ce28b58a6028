// What threads may share.
use crate::list::EventList;

fn share<T: Sync>(_value: &T) {}

// A list may be shared between threads.
fn list_shared(list: &EventList) {
    share(list);
}
