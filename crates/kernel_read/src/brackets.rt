// How many brackets are open.
ghost use Rattle.std.specs.Prelude.{◌≡◌, Some};
ghost use Rattle.kernel_read.specs.Brackets.{open_behind as open_after, open_with as open_by};

/// How many brackets may be open at once.
const GREATEST_DEPTH: usize = 4096;

/// How many brackets are open behind a byte before which so many are; none where one opens while as many as may be are open.
fn open_with(depth: usize, byte: u8) -> Option<usize>
    ensures { result ≡ open_by (Some depth) byte }
{
    match byte {
        b'(' | b'[' | b'{' => {
            if depth < GREATEST_DEPTH {
                Some(depth + 1)
            } else {
                None
            }
        }
        b')' | b']' | b'}' => Some(depth.saturating_sub(1)),
        _ => Some(depth),
    }
}

/// How many brackets are open behind a line before which so many are: `(`, `[` and `{` alike. None where one opens while
/// 4,096 are open.
pub fn open_behind(depth: usize, line: &[u8]) -> Option<usize>
    ensures { result ≡ open_after (Some depth) line.now }
{
    let mut depth = depth;
    for byte in line {
        depth = open_with(depth, *byte)?;
    }
    Some(depth)
}
