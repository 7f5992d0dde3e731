// A file, by its name, and what bytes are read from.
ghost use Rattle.channel.specs.System.{Descriptor};
ghost use Rattle.channel.specs.System.Origin.{file};

use std::fs::File;

// What bytes are read from: standard input, or a file that was opened. Of one that can't be opened no read is taken.
#[derive(Drop)]
pub enum Source {
    Input,
    Opened(File),
    Absent,
}

// The file of a name. Of one that can't be opened no read is taken.
pub fn open_file(rt: &HostRuntime, path: &str) -> Source
    ensures { Descriptor result (file path.now) }
{
    match File::open(rt, path) {
        Ok(opened) => Source::Opened(opened),
        Err(_) => Source::Absent,
    }
}

// Gives a file back.
pub fn close_file(source: Source) {
    drop(source);
}
