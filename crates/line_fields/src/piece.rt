ghost use Rattle.std.specs.Prelude.{◌≡◌, ◌<◌, ◌^◌, length, option_map, slice_get};
ghost use Rattle.line_fields.specs.Pieces.{Within, unquoted, pieces, start_at};

use smallvec::SmallVec;

/// Where the pieces of a line end. Those of most lines need no memory of their own.
pub(crate) type Ends = SmallVec<usize, 8>;

fn start_of(ends: &[usize], place: usize) -> usize
    requires there { place < length ends.now }
    requires fits { start_at 0 ends.now place < 2 ^ 64 }
    ensures { result ≡ start_at 0 ends.now place }
{
    if place == 0 { 0 } else { ends[place - 1] + 1 }
}

// The piece at a place.
pub(crate) fn piece_at<'line>(
    line: &'line [u8],
    ends: &[usize],
    place: usize,
) -> Option<&'line [u8]>
    requires { Within 0 ends.now (length line.now) }
    ensures { option_map (λ s. s.now) result ≡ slice_get (pieces 0 ends.now line.now) place }
{
    if place >= ends.len() {
        return None;
    }
    let _size = line.len();
    let start = start_of(ends, place);
    Some(&line[start..ends[place]])
}

// A piece without the quotes that it stands in.
pub(crate) fn unquoted(piece: &[u8]) -> &[u8]
    ensures { result.now ≡ unquoted piece.now }
{
    if piece.len() > 1 && piece[0] == b'"' {
        return &piece[1..piece.len() - 1];
    }
    piece
}
