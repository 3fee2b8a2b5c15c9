// Who holds the files in which images are made.
use blocks::FileFault;

/// Who opens the files that a command makes or replaces, and locks each until it is closed with the
/// handles that were cloned from it, so that no other program changes it meanwhile. What it does is so
/// by its code.
pub trait Holder<F> {
    /// Makes an empty file at this path, where nothing has that name; others may use it as this mode
    /// lets them, and the system's mask.
    ///
    /// # Errors
    ///
    /// `Exists` where something has that name, at once or, where it waits, once no other program has it;
    /// `NoMemory` or `Open` where the file can't be made; `Unlockable` where it can't be locked, and then
    /// it is taken away; `Locked` where another program has it by then, whose the path is from then on.
    fn hold_new(&mut self, path: &str, mode: u32) -> Result<F, FileFault>;

    /// The same, but that a plain file with one name at this path that no other program has is held as
    /// it stands.
    ///
    /// # Errors
    ///
    /// As those of `hold_new`; `Exists` only where what has that name is no such file, and `Locked` also
    /// where another program has that.
    fn hold_left(&mut self, path: &str, mode: u32) -> Result<F, FileFault>;

    /// Holds what is at this path, to be written; an empty file is made where nothing is, also where a
    /// link leads there.
    ///
    /// # Errors
    ///
    /// As those of `cmd::open_held`.
    fn hold_any(&mut self, path: &str) -> Result<F, FileFault>;

    /// Holds the plain file at this path; none where there is none.
    ///
    /// # Errors
    ///
    /// As those of `cmd::open_held`.
    fn hold_there(&mut self, path: &str) -> Result<Option<F>, FileFault>;
}
