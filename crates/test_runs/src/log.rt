//! Where a report goes.
ghost use Rattle.std.specs.Prelude.{◌≡◌, ℕ, List, [], Option, None, Some, false, true, option_map};
ghost use Rattle.std.specs.Io.KnownBytes.{Appends};

use std::io::Write;

/// A writer that is opened for a file, or for standard error.
pub trait Log: Write {
    // The place that is open: the path of a file, or standard error; or none yet.
    ghost place: { Self → Option (Option (List ℕ)) };

    /// Opens a file, which is emptied, or standard error if none is named. Returns whether it could. It is called once.
    fn open(&mut self, path: Option<&str>) -> bool
        requires { place self.old ≡ None }
        ensures contents { Appends (Self.contents self.old) (Self.contents self.new) [] }
        ensures opened { result ≡ true → place self.new ≡ Some (option_map (λ path. path.now) path.entry) }
        ensures left { result ≡ false → place self.new ≡ None };
}
