// The laws of the format, each said by a function's contract; the functions compute nothing.
ghost use Rattle.hall.specs.Laws.{TaskReadsBack, TaskWritesBack, WayReadsBack, WayWritesBack, SoundDecided};

// A task that fits, once written, is taken, and read as the same task.
pub fn task_reads_back()
    ensures { TaskReadsBack }
{}

// Bytes that are taken are those of the task that is read from them.
pub fn task_writes_back()
    ensures { TaskWritesBack }
{}

// A way that fits, once written, is taken, and read as the same way.
pub fn way_reads_back()
    ensures { WayReadsBack }
{}

// Bytes that are taken are those of the way that is read from them.
pub fn way_writes_back()
    ensures { WayWritesBack }
{}

// The test of a shape holds exactly of the sound ones.
pub fn sound_decided()
    ensures { SoundDecided }
{}
