// What a script is made for.
ghost use Rattle.std.specs.Prelude.{◌≤◌, ◌<◌};

use crate::chance::Chance;
use model::types::Form;

/// An image, the processes that work on it, and how they do.
#[derive(Clone, Copy)]
pub struct Setting {
    /// The image's form, its blocks, and its inode numbers, number 0 included.
    pub form: Form,
    pub size: u32,
    pub inode_count: u32,
    /// How many inode numbers the operations name most.
    pub numbers: u32,
    pub processes: u32,
    pub operations: u32,
    /// So many operations make a first file, and write to it.
    pub long: u32,
    /// So many of these are made before the run.
    pub laid: u32,
    /// Whether the others come process by process, or else by chance.
    pub is_in_rows: bool,
    /// An operation is handed in at one in so many turns.
    pub pace: u32,
    /// Another process has its turn at one in so many turns.
    pub stay: u32,
    /// An answer is fetched at one in so many turns.
    pub fetch: u32,
    /// At most so many stops are tried.
    pub stops: u64,
    /// Of the calls that may fail, and of the turns behind which writes are held, one in so many is
    /// tried.
    pub each: u32,
    ghost some_numbers: { 0 < numbers },
    ghost few_processes: { processes ≤ 32 },
    ghost some_processes: { 0 < processes },
    ghost some_pace: { 0 < pace },
    ghost some_stay: { 0 < stay },
    ghost some_fetch: { 0 < fetch },
    ghost some_each: { 0 < each },
}

impl Setting {
    /// That of a seed, over an image of that form. Each third script has up to three processes, the
    /// others up to 32.
    pub fn drawn(seed: u64, form: Form) -> Setting {
        match form {
            Form::One => Setting::of_small_files(seed),
            Form::Two => Setting::of_large_files(seed),
        }
    }

    // In each fourth image are few data blocks, so that it soon is full.
    fn of_small_files(seed: u64) -> Setting {
        let mut chance = Chance::new(seed, 0);
        let inode_count = 2 + chance.below(31);
        let is_small = chance.is_one_in(4);
        let least = if is_small { 1 } else { 14 };
        let data_blocks = least + chance.below(if is_small { 12 } else { 60 });
        let numbers = 1 + chance.below(4);
        let most_processes = if chance.is_one_in(3) { 3 } else { 32 };
        Setting {
            form: Form::One,
            size: size_with(inode_count, data_blocks),
            inode_count,
            numbers,
            processes: 1 + chance.below(most_processes),
            operations: 10 + chance.below(71),
            long: if chance.is_one_in(2) { 5 } else { 0 },
            laid: 0,
            is_in_rows: false,
            pace: [1, 5, 25, 100][chance.below(4) as usize],
            stay: [1, 3, 20][chance.below(3) as usize],
            fetch: if chance.is_one_in(4) { 50 } else { 1 },
            stops: 20,
            each: 1,
        }
    }

    // The first file goes over the 267 blocks that its inode and its indirect block name, or over
    // the 256 behind them; most often a part of it is there before the run. In each second image
    // are few blocks more than it takes, or fewer.
    fn of_large_files(seed: u64) -> Setting {
        let mut setting = Setting::of_small_files(seed);
        let mut chance = Chance::new(seed, 5);
        // How many operations make it, and how many blocks it takes, those of addresses among them.
        let (long, blocks) = if chance.is_one_in(4) {
            (177, 532)
        } else {
            (92, 276)
        };
        let data_blocks = if chance.is_one_in(2) {
            blocks - 10 + chance.below(14)
        } else {
            blocks + 10 + chance.below(60)
        };
        setting.form = Form::Two;
        setting.size = size_with(setting.inode_count, data_blocks);
        setting.numbers = 1 + chance.below(2);
        setting.operations = long + 10 + chance.below(31);
        setting.long = long;
        setting.laid = if long < 100 && chance.is_one_in(4) {
            0
        } else {
            long - 3 - chance.below(4)
        };
        setting.each = 5;
        setting
    }

    /// That of a seed, with at most 24 operations in the run.
    pub fn short(seed: u64, form: Form) -> Setting {
        let mut setting = Setting::drawn(seed, form);
        setting.laid = setting.laid_of_short();
        setting.operations = setting.operations.min(setting.laid.saturating_add(24));
        setting
    }

    // Of a long beginning all but the last six operations are made before the run.
    fn laid_of_short(&self) -> u32 {
        if self.laid < self.long && self.long > 24 {
            return self.laid.max(self.long - 6);
        }
        self.laid
    }

    /// That of the operations which are made before the run, by one process.
    pub fn beginning(&self) -> Setting {
        let mut setting = *self;
        setting.processes = 1;
        setting.operations = self.laid;
        setting.laid = 0;
        setting.pace = 1;
        setting.stay = 1;
        setting.fetch = 1;
        setting
    }

    /// That of a script in rows: each of 32 processes makes a file, then each writes to one, and
    /// then each empties one, removes one, or makes another. Each of its stops is tried.
    pub fn in_rows() -> Setting {
        Setting {
            form: Form::One,
            size: 200,
            inode_count: 64,
            numbers: 31,
            processes: 32,
            operations: 102,
            long: 6,
            laid: 0,
            is_in_rows: true,
            pace: 100,
            stay: 3,
            fetch: 1,
            stops: u64::MAX,
            each: 1,
        }
    }
}

// The blocks of an image of so many inode numbers and data blocks: behind the log and the inodes
// come the bitmap's block and the data.
fn size_with(inode_count: u32, data_blocks: u32) -> u32 {
    (35 + inode_count / 16).saturating_add(data_blocks)
}
