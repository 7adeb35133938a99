// What the total reading is worth, each on a function that does nothing else than state it.
ghost use Rattle.walk.specs.Reached.{Agreement, FilesReached};

// What the reading that checks reads, the total one reads too.
pub fn readings_agree()
    ensures { Agreement }
{}

// Each file's declarations are reached by the model's list of files.
pub fn files_reached()
    ensures { FilesReached }
{}
