// The kind of store that parameters choose.
ghost use Rattle.std.specs.Prelude.{◌≡◌};
ghost use Rattle.mps_inputs.specs.Stores.{kind_of};

use mp_params::{Params, StoreChoice};
use seq_engine::StoreKind;

/// How replicates are counted, as the parameters choose.
pub fn kind_for(parameters: &Params) -> StoreKind
    ensures { result ≡ kind_of parameters.now.store }
{
    match parameters.store {
        StoreChoice::Tree => StoreKind::Tree,
        StoreChoice::List => StoreKind::List,
    }
}
