// What may go from thread to thread: the call of `give` is proved, and none is made when the program
// runs.
use crate::board::Board;

fn give<T: Send>(_value: &T) {}

fn board_given(board: &Board) {
    give(board);
}
