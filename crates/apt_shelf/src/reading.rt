//! A started read.
ghost use Rattle.std.specs.Prelude.{◌≡◌, ◌<◌, ◌≤◌, min, length, take, drop};
ghost use Rattle.apt_shelf.specs.Reading.{IsWithin, bytes_at, bytes_of, files_needed, left_in, moved};
ghost use Rattle.apt_shelf.specs.declared.reading.Source.TheVariants as sources;

/// Where the bytes of a started read stand.
#[derive(Drop)]
pub(crate) enum Source {
    /// In the file at this place of a list.
    File(usize),
    /// Moved out of a file that was emptied.
    Held(Vec<u8>),
}

impl Source {
    fn bytes<'a>(&'a self, files: &'a [(String, Vec<u8>)]) -> &'a [u8]
        requires { files_needed self.now ≤ length files.now }
        ensures { result.now ≡ bytes_of files.now self.now }
    {
        match self {
            Source::File(i) => &files[*i].1,
            Source::Held(bytes) => bytes,
        }
    }
}

/// What a name held when its read was started, and how far it was read. What was added to the file
/// since stands behind the end.
#[derive(Drop)]
pub(crate) struct Reading {
    source: Source,
    at: usize,
    end: usize,
}

impl Reading {
    /// A read of the file at this place.
    pub(crate) fn new(files: &[(String, Vec<u8>)], place: usize) -> Reading
        requires { place < length files.now }
        ensures within { IsWithin files.now result }
        ensures left { left_in files.now result ≡ bytes_at files.now place }
    {
        Reading {
            source: Source::File(place),
            at: 0,
            end: files[place].1.len(),
        }
    }

    /// Moves as many bytes as fit to the front of the buffer.
    pub(crate) fn read(&mut self, files: &[(String, Vec<u8>)], buf: &mut [u8]) -> usize
        requires within { IsWithin files.now self.old }
        ensures within { IsWithin files.now self.new }
        ensures count { result ≡ min (length (left_in files.now self.old)) (length buf.new) }
        ensures front { take result buf.new ≡ take result (left_in files.now self.old) }
        ensures rest { left_in files.now self.new ≡ drop result (left_in files.now self.old) }
    {
        let bytes = self.source.bytes(files);
        let rest = &bytes[self.at..self.end];
        let n = rest.len().min(buf.len());
        buf[..n].copy_from_slice(&rest[..n]);
        self.at += n;
        n
    }

    /// Holds the bytes that are moved out of the file at this place, if it reads that file.
    pub(crate) fn hold(&mut self, place: usize, bytes: Vec<u8>)
        ensures { self.new ≡ moved place (sources.Held bytes) self.old }
    {
        if let Source::File(i) = self.source {
            if i == place {
                self.source = Source::Held(bytes);
            }
        }
    }
}
