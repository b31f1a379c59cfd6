// The exported function for ship lots. The records are lent as C has them.
ghost use Rattle.std.specs.Prelude.{◌≡◌};
ghost use Rattle.lot_rules.specs.Lots.{lot_of};
ghost use Rattle.abi_lot.specs.LotAnswers.{lot_given};

use abi_lot::GrainLot;
use lot_rules::Sublot;

#[unsafe(no_mangle)]
pub extern "C" fn grain_ship_lot(records: &[Sublot]) -> GrainLot
    ensures { result ≡ lot_given (lot_of records.now) }
{
    lot::ship_lot(records).into()
}
