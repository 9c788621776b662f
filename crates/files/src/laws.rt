//! What holds of all files.

ghost use Rattle.files.specs.Laws.{FilesArePlans, FrontDecides, SmallFiles};

/// Bytes are read as a plan exactly where the plan keeps to its bounds and they are its file.
pub fn files_are_plans()
    ensures { FilesArePlans }
{}

/// What stands behind the 28,937th byte does not change what a file means.
pub fn front_decides()
    ensures { FrontDecides }
{}

/// The smallest file, the same with a byte behind it, and an empty one.
pub fn small_files()
    ensures { SmallFiles }
{}
