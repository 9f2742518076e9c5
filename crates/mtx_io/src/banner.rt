ghost use Rattle.std.specs.Prelude.{◌≡◌, true, false, IfOk};
ghost use Rattle.std.specs.Str.{str_eq_ignore_ascii_case};
ghost use Rattle.mtx_io.specs.Banner.{layout_of, integer_layout_of, symmetry_of, go_together, begins_matrix, banner_of, needs_minus};
ghost use Rattle.mtx_io.specs.Matrix.{banner_line};
ghost use Rattle.text_lines.specs.Cutting.{is_long};
ghost use Rattle.text_lines.specs.Tokens.{tokens};

use crate::fields::five_tokens;
use numbers::Semiring;
use text_lines::LineKind;

/// How the entries of a matrix are told.
#[derive(Clone, Copy, Debug, PartialEq, Eq)]
pub(crate) enum Layout {
    /// Each with its row, its column and its value.
    Coordinate,
    /// Each with its row and its column: its value is one.
    Pattern,
    /// By their values alone, column by column.
    Array,
}

/// What the entries on one side of the diagonal say of the other.
#[derive(Clone, Copy, Debug, PartialEq, Eq)]
pub(crate) enum Symmetry {
    /// Nothing.
    General,
    /// The same values stand there.
    Symmetric,
    /// The values stand there with the other sign.
    SkewSymmetric,
}

/// What the first line of a file says of the matrix.
#[derive(Clone, Copy, Debug, PartialEq, Eq)]
pub(crate) struct Banner {
    /// How its entries are told.
    pub(crate) layout: Layout,
    /// Which entries have a mirror image.
    pub(crate) symmetry: Symmetry,
}

/// Whether the token is the word, in capital or small letters.
fn is_word(token: &[u8], word: &[u8]) -> bool
    ensures { result ≡ str_eq_ignore_ascii_case token.now word.now }
{
    token.eq_ignore_ascii_case(word)
}

/// How integers are told, by the banner's word.
fn read_integer_layout(token: &[u8]) -> Option<Layout>
    ensures { result ≡ integer_layout_of token.now }
{
    if is_word(token, b"coordinate") {
        Some(Layout::Coordinate)
    } else if is_word(token, b"array") {
        Some(Layout::Array)
    } else {
        None
    }
}

/// How the entries are told, by the banner's words for it and for their values.
fn read_layout(token: &[u8], field: &[u8]) -> Option<Layout>
    ensures { result ≡ layout_of token.now field.now }
{
    if is_word(field, b"integer") {
        read_integer_layout(token)
    } else if is_word(field, b"pattern") && is_word(token, b"coordinate") {
        Some(Layout::Pattern)
    } else {
        None
    }
}

/// Which entries have a mirror image, by the banner's word.
fn read_symmetry(token: &[u8]) -> Option<Symmetry>
    ensures { result ≡ symmetry_of token.now }
{
    if is_word(token, b"general") {
        Some(Symmetry::General)
    } else if is_word(token, b"symmetric") {
        Some(Symmetry::Symmetric)
    } else if is_word(token, b"skew-symmetric") {
        Some(Symmetry::SkewSymmetric)
    } else {
        None
    }
}

/// Whether these are the mark of the format and the word for a matrix.
fn begins_matrix(mark: &[u8], object: &[u8]) -> bool
    ensures { result ≡ begins_matrix mark.now object.now }
{
    mark == b"%%MatrixMarket".as_slice() && is_word(object, b"matrix")
}

/// What a banner says. None where the line is no banner of a matrix of integers or of a pattern.
pub(crate) fn read_banner(line: &[u8]) -> Option<Banner>
    ensures { result ≡ banner_of (tokens line.now) }
{
    let (mark, object, layout, field, symmetry) = five_tokens(line)?;
    if !begins_matrix(mark, object) {
        return None;
    }
    let layout = read_layout(layout, field)?;
    let symmetry = read_symmetry(symmetry)?;
    if layout.goes_with(symmetry) {
        Some(Banner { layout, symmetry })
    } else {
        None
    }
}

/// What a first line that isn't too long says. A skew-symmetric matrix asks for a minus of `S`.
pub(crate) fn read_first_line<S: Semiring>(line: &[u8]) -> Result<Banner, LineKind>
    requires { is_long line.now ≡ false }
    ensures line { result ≡ banner_line S.has_minus line.now }
    ensures minus { IfOk result (λ banner. needs_minus banner.symmetry ≡ true → S.has_minus ≡ true) }
{
    let Some(banner) = read_banner(line) else {
        return Err(LineKind::BadBanner);
    };
    if banner.symmetry.needs_minus() && S::minus_one().is_none() {
        return Err(LineKind::NoMinus);
    }
    Ok(banner)
}

impl Layout {
    /// Whether a matrix may have both: a pattern has no values that could be negated.
    fn goes_with(self, symmetry: Symmetry) -> bool
        ensures { result ≡ go_together self symmetry }
    {
        self != Layout::Pattern || !symmetry.needs_minus()
    }
}

impl Symmetry {
    /// Whether mirror images are negated.
    pub(crate) fn needs_minus(self) -> bool
        ensures { result ≡ needs_minus self }
    {
        self == Symmetry::SkewSymmetric
    }
}
