//! What a log does to its disk: stages, each of which is written and made sure of before the next.

ghost use Rattle.std.specs.Prelude.{◌≡◌, ◌+◌, ◌<◌, ◌≤◌, ◌^◌, [], ◌∷◌, ◌++◌, List, ℕ, length, option_map, OnOk};
ghost use Rattle.disk_model.specs.Told.{IfTold, SameTold};
ghost use Rattle.disk_model.specs.Images.{Only, Torn};
ghost use Rattle.disk_model.specs.Calls.{overwritten, HasCause, IsAtRest, LeavesOnly};
ghost use Rattle.redo_log.specs.Text.{number_text, EndsAt, IsBeforeOrAfter};

use disk_model::{Disk, DiskFault};

// Writes on a disk at rest, and makes sure of it.
pub(crate) fn stage<D: Disk>(disk: &mut D, at: u64, bytes: &[u8]) -> Result<(), DiskFault>
    requires { IfTold (D.told.reading disk.old) (λ file. (at ≤ length file) × Only file (D.told.images disk.old)) }
    ensures fits { OnOk result (at + length bytes.now < 2 ^ 63) }
    ensures written { OnOk result (D.told.reading disk.new ≡ option_map (overwritten at bytes.now) (D.told.reading disk.old)) }
    ensures sure { OnOk result (IsAtRest D.told disk.new) }
    ensures leaves { IfTold (D.told.reading disk.old) (λ file. LeavesOnly D.told disk.old disk.new (Torn at (length bytes.now) file)) }
    ensures same { SameTold (D.told.reading disk.old) (D.told.reading disk.new) }
    ensures reads { D.told.reads disk.new ≡ D.told.reads disk.old }
    ensures cause { HasCause D.told disk.old disk.new result }
{
    disk.write_at(at, bytes)?;
    disk.sync()
}

// Adds a record behind the closed gate, which it then opens. `block` is the payload's length, the payload and a
// closed gate.
pub(crate) fn add<D: Disk>(disk: &mut D, end: u64, block: &[u8]) -> Result<(), DiskFault>
    requires at_rest { IfTold (D.told.reading disk.old) (λ file. (end < length file) × Only file (D.told.images disk.old)) }
    requires room { end < 2 ^ 63 }
    ensures fits { OnOk result (end + 1 + length block.now < 2 ^ 63) }
    ensures added { (format generation : ℕ) (payloads : List (List ℕ)) (payload : List ℕ) → length payload < 2 ^ 64
        → block.now ≡ number_text (length payload) ++ payload ++ 0 ∷ []
        → IfTold (D.told.reading disk.old) (EndsAt format generation payloads end)
        → OnOk result (IfTold (D.told.reading disk.new) (λ file. Only file (D.told.images disk.new)
        × EndsAt format generation (payloads ++ payload ∷ []) (end + length block.now) file)) }
    ensures leaves { (format generation : ℕ) (payloads : List (List ℕ)) (payload : List ℕ) → length payload < 2 ^ 64
        → block.now ≡ number_text (length payload) ++ payload ++ 0 ∷ []
        → IfTold (D.told.reading disk.old) (EndsAt format generation payloads end)
        → IfTold (D.told.reading disk.old) (λ _. LeavesOnly D.told disk.old disk.new (IsBeforeOrAfter format generation payloads payload)) }
    ensures same { SameTold (D.told.reading disk.old) (D.told.reading disk.new) }
    ensures reads { D.told.reads disk.new ≡ D.told.reads disk.old }
    ensures cause { HasCause D.told disk.old disk.new result }
{
    stage(disk, end + 1, block)?;
    stage(disk, end, &[1])
}
