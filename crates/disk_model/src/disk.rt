//! A disk: what a read gives, and what a crash may leave.

ghost use Rattle.std.specs.Prelude.{◌≡◌, ◌≤◌, ◌<◌, ◌+◌, ◌-◌, ◌^◌, List, ℕ, length, min, option_map, IfOk, OnOk, OnErr};
ghost use Rattle.disk_model.specs.Told.{Told, IfTold, SameTold};
ghost use Rattle.disk_model.specs.Images.{Only, Torn, Tears, TearsAll};
ghost use Rattle.disk_model.specs.Calls.{overwritten, GivesBytes, HasCause, LeavesAlone, Elapses};

/// A call on a disk failed. The disk counts it.
#[derive(Clone, Copy, Debug, PartialEq, Eq)]
pub struct DiskFault;

/// The three files of a store.
#[derive(Drop)]
pub struct Files<D> {
    /// One of the two redo logs.
    pub log0: D,
    /// The other redo log.
    pub log1: D,
    /// The bytes of the body parts.
    pub bodies: D,
}

/// A file as a store sees it. Places and lengths are in bytes. Nobody else writes it.
pub trait Disk {
    /// What contracts know of it: the reading, the images that a crash may leave, the moment, and the counts.
    ghost told: { Told Self };

    /// The length.
    fn len(&mut self) -> Result<u64, DiskFault>
        ensures length { IfOk result (λ n. IfTold (told.reading self.old) (λ file. n ≡ length file)) }
        ensures alone { LeavesAlone told self.old self.new }
        ensures reads { told.reads self.new ≡ told.reads self.old }
        ensures cause { HasCause told self.old self.new result };

    /// Reads into the front of `buf`, and says how many bytes; 0 at the end and past it. After a fault `buf` holds any bytes.
    fn read(&mut self, at: u64, buf: &mut [u8]) -> Result<usize, DiskFault>
        ensures within { IfOk result (λ n. n ≤ length buf.old) }
        ensures bytes { IfOk result (λ n. IfTold (told.reading self.old) (λ file. GivesBytes file at n buf.old buf.new)) }
        ensures alone { LeavesAlone told self.old self.new }
        ensures reads { told.reads self.new ≡ min (told.reads self.old + 1) (2 ^ 64 - 1) }
        ensures cause { HasCause told self.old self.new result };

    /// Writes over what is there, and past the end. A crash may tear it until a sync. A write whose end would pass
    /// `i64::MAX` fails. After a fault the range may hold any bytes.
    fn write_at(&mut self, at: u64, bytes: &[u8]) -> Result<(), DiskFault>
        requires { IfTold (told.reading self.old) (λ file. at ≤ length file) }
        ensures fits { OnOk result (at + length bytes.now < 2 ^ 63) }
        ensures written { OnOk result (told.reading self.new ≡ option_map (overwritten at bytes.now) (told.reading self.old)) }
        ensures same { SameTold (told.reading self.old) (told.reading self.new) }
        ensures torn { IfTold (told.reading self.old) (λ old. IfTold (told.reading self.new) (Torn at (length bytes.now) old)) }
        ensures images { Tears at (length bytes.now) (told.images self.old) (told.images self.new) }
        ensures all_images { OnOk result (TearsAll at (length bytes.now) (told.images self.old) (told.images self.new)) }
        ensures makes_nothing_sure { (image : List ℕ) → told.images self.old image → told.images self.new image }
        ensures time { Elapses told self.old self.new }
        ensures reads { told.reads self.new ≡ told.reads self.old }
        ensures cause { HasCause told self.old self.new result };

    /// Makes sure of what was written. After a fault nothing changed in what may be lost.
    fn sync(&mut self) -> Result<(), DiskFault>
        ensures sure { OnOk result (IfTold (told.reading self.old) (λ file. Only file (told.images self.new))) }
        ensures alone { OnErr result (LeavesAlone told self.old self.new) }
        ensures reading { told.reading self.new ≡ told.reading self.old }
        ensures images { (image : List ℕ) → told.images self.new image → told.images self.old image }
        ensures time { Elapses told self.old self.new }
        ensures reads { told.reads self.new ≡ told.reads self.old }
        ensures cause { HasCause told self.old self.new result };
}
