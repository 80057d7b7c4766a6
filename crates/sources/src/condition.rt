// The interface of a condition on entries.
ghost use Rattle.std.specs.Prelude.{◌≡◌, Bool};
ghost use Rattle.shapes.specs.Entries.{EntryValues, entry_values};

use shapes::entry::Entry;

// A condition means a fixed set of entries: those that pass.
pub trait Condition {
    ghost passing: { Self → EntryValues → Bool };

    // Tells of any entry whether it passes.
    fn passes(&self, entry: &Entry) -> bool
        ensures { result ≡ passing self.now (entry_values entry.now) };
}
