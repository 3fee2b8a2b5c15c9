// A disk of which one call fails.
ghost use Rattle.std.specs.Prelude.{◌≡◌, ◌≢◌, ◌<◌, ◌^◌, ◌⊎◌, ◌||◌, false, if◌then◌else◌, length, IsTrue, IsErr, IfErr};
ghost use Rattle.blocks.specs.Calls.{ReadsOne, SyncsOne, WritesOne};
ghost use Rattle.blocks.specs.Disk.{one_more};
ghost use Rattle.blocks.specs.Trap.{KeepsCounts, is_due, is_read, is_sync, is_write, left_after};

use crate::{Block, Disk, DiskFault, SyncFault};

/// Which calls are counted, and what the one that fails leaves.
#[derive(Clone, Copy)]
pub enum Kind {
    /// Reads. The one that fails reads nothing.
    Read,
    /// Writes. The one that fails writes nothing.
    WriteOld,
    /// Writes. The one that fails writes its block all the same.
    WriteNew,
    /// Syncs. The one that fails syncs nothing.
    Sync,
}

impl Kind {
    // Whether it counts writes.
    fn is_write(self) -> bool
        ensures { result ≡ is_write self }
    {
        match self {
            Kind::Read | Kind::Sync => false,
            Kind::WriteOld | Kind::WriteNew => true,
        }
    }

    // Whether it counts reads.
    fn is_read(self) -> bool
        ensures { result ≡ is_read self }
    {
        match self {
            Kind::Read => true,
            Kind::WriteOld | Kind::WriteNew | Kind::Sync => false,
        }
    }

    // Whether it counts syncs.
    fn is_sync(self) -> bool
        ensures { result ≡ is_sync self }
    {
        match self {
            Kind::Sync => true,
            Kind::Read | Kind::WriteOld | Kind::WriteNew => false,
        }
    }
}

/// Which call of a `FaultyDisk` fails, and what its counts were when it was made.
#[derive(Clone, Copy)]
pub struct Trap {
    /// Which calls are counted.
    pub kind: Kind,
    /// The number of the call that fails, from 1; none does where this is 0.
    pub nth: u64,
    /// The writes that the disk had counted.
    pub writes: u64,
    /// The faults that it had counted.
    pub faults: u64,
}

/// A disk over another, of which one call fails: the nth read, write or sync. It shows the
/// layers above how they take a fault in any place.
#[derive(Drop)]
pub struct FaultyDisk<D> {
    inner: D,
    trap: Trap,
    left: u64,
    fired: bool,
    writes: u64,
    faults: u64,
    ghost counts: { KeepsCounts trap left fired writes faults },
    ghost writes_fit: { writes < 2 ^ 64 },
    ghost faults_fit: { faults < 2 ^ 64 },
}

impl<D: Disk> FaultyDisk<D> {
    ghost use Rattle.blocks.specs.FaultyDisk.{inner_of, trap_of, kind_of, left_of, has_fired, SameCounts};
    ghost use Rattle.blocks.specs.declared.faulty.Kind.TheVariants.{WriteOld};

    /// The nth call of the kind fails, counted from 1 and from here on; none does where `n` is 0.
    /// The counts of writes and faults go on from those of the disk below.
    pub fn new(inner: D, n: u64, kind: Kind) -> FaultyDisk<D>
        ensures inner { inner_of result ≡ inner }
        ensures trap { trap_of result ≡ record {
          kind = kind;
          nth = n;
          writes = D.write_count inner;
          faults = D.fault_count inner;
        } }
        ensures left { left_of result ≡ n }
        ensures fired { IsTrue (has_fired result) → ⊥ }
        ensures writes { ⟦<FaultyDisk<D> as Disk>⟧.write_count result ≡ D.write_count inner }
        ensures faults { ⟦<FaultyDisk<D> as Disk>⟧.fault_count result ≡ D.fault_count inner }
    {
        let writes = inner.writes();
        let faults = inner.faults();
        FaultyDisk {
            inner,
            trap: Trap {
                kind,
                nth: n,
                writes,
                faults,
            },
            left: n,
            fired: false,
            writes,
            faults,
        }
    }

    /// Whether the nth call of the kind was made.
    pub fn fired(&self) -> bool
        ensures { result ≡ has_fired self.now }
    {
        self.fired
    }

    /// The disk below.
    pub fn into_inner(self) -> D
        ensures { result ≡ inner_of self }
    {
        let FaultyDisk { inner, .. } = self;
        inner
    }

    // Passes a write on, unless it is the one that fails and leaves the block as it was.
    fn pass_write(&mut self, is_due: bool, block: u32, from: &Block) -> Result<(), DiskFault>
        requires { block < length (D.image (inner_of self.old)) }
        ensures kept { IsTrue is_due → kind_of self.old ≡ WriteOld →
            (inner_of self.new ≡ inner_of self.old) × IsErr result }
        ensures passed { (IsTrue is_due × (kind_of self.old ≡ WriteOld))
            ⊎ WritesOne D.Disk block from.now result (inner_of self.old) (inner_of self.new) }
        ensures fault { IfErr result (λ fault. fault.0 ≡ block) }
        ensures same { SameCounts self.old self.new }
    {
        if is_due && matches!(self.trap.kind, Kind::WriteOld) {
            return Err(DiskFault(block));
        }
        self.inner.write(block, from)
    }

    // Counts a read or a sync that was made, and its fault where it failed.
    fn tally(&mut self, is_counted: bool, due: bool, failed: bool)
        requires kind { IsTrue is_counted → is_write (kind_of self.old) ≡ false }
        requires due { due ≡ is_due is_counted (left_of self.old) }
        ensures inner { inner_of self.new ≡ inner_of self.old }
        ensures trap { trap_of self.new ≡ trap_of self.old }
        ensures left { left_of self.new ≡ left_after is_counted (left_of self.old) }
        ensures fired { has_fired self.new ≡ (has_fired self.old || due) }
        ensures writes { self.new.writes ≡ self.old.writes }
        ensures faults { self.new.faults
            ≡ (if failed then one_more self.old.faults else self.old.faults) }
    {
        self.left = left_after(is_counted, self.left);
        self.fired = either(self.fired, due);
        if failed {
            self.faults = self.faults.saturating_add(1);
        }
    }

    /// Does nothing: it says what is true of every such disk: how its counts stand to the call
    /// that fails.
    pub fn known(&self)
        ensures { KeepsCounts (trap_of self.now) (left_of self.now) (has_fired self.now)
            (⟦<FaultyDisk<D> as Disk>⟧.write_count self.now)
            (⟦<FaultyDisk<D> as Disk>⟧.fault_count self.now) }
    {
        let _ = &self.fired;
    }
}

impl<D: Disk> Disk for FaultyDisk<D> {
    ghost use Rattle.blocks.specs.FaultyDisk.{inner_of, kind_of, CountsDown, IsReadDue, IsSyncDue, IsWriteDue, TrapsRead, TrapsSync, TrapsWrite};
    ghost use Rattle.blocks.specs.declared.faulty.Kind.TheVariants.{Read, Sync};

    // The disk below, and the call that fails.
    type Name = (D::Name, Trap);

    ghost name = { λ d. (D.name d.inner, d.trap) };

    ghost image = { λ d. D.image d.inner };

    ghost moment = { λ d. D.moment d.inner };

    ghost leaves = { λ d. D.leaves d.inner };

    ghost write_count = { λ d. d.writes };

    ghost fault_count = { λ d. d.faults };

    ghost sync_count = { λ d. D.sync_count d.inner };

    ghost holding = { λ n. D.holding n.0 };

    ghost is_image = { λ d. D.is_image d.inner };

    ghost leaves_images = { λ d. D.leaves_images d.inner };

    ghost counts_fit = { λ d. (d.writes_fit, d.faults_fit, (D.counts_fit d.inner).2) };

    ghost counts_now = { λ d. D.counts_now d.inner };

    ghost has_now = { λ d. D.has_now d.inner };

    ghost only_now = { λ d. D.only_now d.inner };

    fn size(&self) -> u32 {
        self.inner.size()
    }

    fn writes(&self) -> u64 {
        self.writes
    }

    fn faults(&self) -> u64 {
        self.faults
    }

    fn syncs(&self) -> u64 {
        self.inner.syncs()
    }

    fn holds(&self) -> bool {
        self.inner.holds()
    }

    /// Besides what each disk promises: the read that is due fails, and any other fails only
    /// where the disk below does.
    fn read(&mut self, block: u32, into: &mut Block) -> Result<(), DiskFault>
        requires { block < length (D.image (inner_of self.old)) }

        // As of each disk.
        ensures reads { ReadsOne ⟦<FaultyDisk<D> as Disk>⟧ block into.new result self.old self.new }
        ensures fault { IfErr result (λ fault. fault.0 ≡ block) }

        // Of this one.
        ensures trap { TrapsRead D.Disk result self.old self.new }
        ensures counts { CountsDown (kind_of self.old ≡ Read) (kind_of self.old ≢ Read)
            (IsReadDue self.old) self.old self.new }
    {
        let is_counted = self.trap.kind.is_read();
        let is_due = is_due(is_counted, self.left);
        let done = if is_due {
            Err(DiskFault(block))
        } else {
            self.inner.read(block, into)
        };
        self.tally(is_counted, is_due, done.is_err());
        done
    }

    /// Besides what each disk promises: the write that is due fails, and leaves the disk below as
    /// it was or passes the write on; any other fails only where the disk below does.
    fn write(&mut self, block: u32, from: &Block) -> Result<(), DiskFault>
        requires { block < length (D.image (inner_of self.old)) }

        // As of each disk.
        ensures writes { WritesOne ⟦<FaultyDisk<D> as Disk>⟧ block from.now result
            self.old self.new }
        ensures fault { IfErr result (λ fault. fault.0 ≡ block) }

        // Of this one.
        ensures trap { TrapsWrite D.Disk block from.now result self.old self.new }
        ensures counts { CountsDown (IsTrue (is_write (kind_of self.old)))
            (is_write (kind_of self.old) ≡ false) (IsWriteDue self.old) self.old self.new }
    {
        let is_counted = self.trap.kind.is_write();
        let is_due = is_due(is_counted, self.left);
        let done = self.pass_write(is_due, block, from);
        self.left = left_after(is_counted, self.left);
        self.fired = either(self.fired, is_due);
        if is_due || done.is_err() {
            self.faults = self.faults.saturating_add(1);
            return Err(DiskFault(block));
        }
        self.writes = self.writes.saturating_add(1);
        Ok(())
    }

    /// Besides what each disk promises: the sync that is due fails, and any other fails only
    /// where the disk below does.
    fn sync(&mut self) -> Result<(), SyncFault>
        // As of each disk.
        ensures syncs { SyncsOne ⟦<FaultyDisk<D> as Disk>⟧ result self.old self.new }

        // Of this one.
        ensures trap { TrapsSync D.Disk result self.old self.new }
        ensures counts { CountsDown (kind_of self.old ≡ Sync) (kind_of self.old ≢ Sync)
            (IsSyncDue self.old) self.old self.new }
    {
        let is_counted = self.trap.kind.is_sync();
        let is_due = is_due(is_counted, self.left);
        let done = if is_due {
            Err(SyncFault)
        } else {
            self.inner.sync()
        };
        self.tally(is_counted, is_due, done.is_err());
        done
    }
}

// Whether a call is the one that fails, with so many up to that.
fn is_due(is_counted: bool, left: u64) -> bool
    ensures { result ≡ is_due is_counted left }
{
    is_counted && left == 1
}

fn either(one: bool, other: bool) -> bool
    ensures { result ≡ (one || other) }
{
    one || other
}

// The calls up to the one that fails, after one that is counted or isn't.
fn left_after(is_counted: bool, left: u64) -> u64
    ensures { result ≡ left_after is_counted left }
{
    if is_counted {
        left.saturating_sub(1)
    } else {
        left
    }
}
