//! The path of an intersection.
ghost use Rattle.std.specs.Prelude.{◌≡◌, length};
ghost use Rattle.rart_nodes.specs.joins.JoinPaths.{PathCut, PathGrown, PathReserved, path_mark};

/// What an intersection keeps of its path.
#[derive(Drop)]
pub(crate) enum JoinPath<'a> {
    /// Keeps nothing.
    Nothing,
    /// Keeps its bytes.
    Bytes(Vec<u8>),
    /// Keeps the segments of the prefixes along it, none of them empty.
    Segments(Vec<&'a [u8]>),
}

impl<'a> JoinPath<'a> {
    /// Returns the length of what is kept.
    pub(crate) fn mark(&self) -> usize
        ensures { result ≡ path_mark self.now }
    {
        match self {
            JoinPath::Nothing => 0,
            JoinPath::Bytes(bytes) => bytes.len(),
            JoinPath::Segments(segments) => segments.len(),
        }
    }

    /// Appends a segment of a prefix. It does not allocate.
    pub(crate) fn grow(&mut self, segment: &'a [u8])
        requires { PathReserved self.old (length segment.now) }
        ensures { PathGrown self.old segment.now self.new }
    {
        match self {
            JoinPath::Nothing => {}
            JoinPath::Bytes(bytes) => {
                let Ok(()) = bytes.extend_from_slice(segment) else {
                    unreachable!()
                };
            }
            JoinPath::Segments(segments) => {
                if !segment.is_empty() {
                    segments.push_reserved(segment);
                }
            }
        }
    }

    /// Truncates the path to the length `mark`.
    pub(crate) fn cut(&mut self, mark: usize)
        ensures { PathCut mark self.old self.new }
    {
        match self {
            JoinPath::Nothing => {}
            JoinPath::Bytes(bytes) => bytes.truncate(mark),
            JoinPath::Segments(segments) => segments.truncate(mark),
        }
    }
}
