//! What a statement and its formats tell of a level that is sought.
ghost use Rattle.std.specs.Prelude.{◌≡◌, ◌<◌, length};
ghost use Rattle.index_notation.specs.Statement.{IsNumbered};
ghost use Rattle.lists.specs.Each.{Each};
ghost use Rattle.lowering.specs.Layouts.{layout_of};
ghost use Rattle.lowering.specs.Sums.{SuitsFormats};
ghost use Rattle.level_location.specs.Walked.{IsLevel, goes_over, is_iterated, is_listed, letter_of};

use format_spec::Format;
use index_notation::Statement;
use level_core::{Letter, caps_of, props_of};
use loop_code::Seek;

/// The kind of the level that is sought.
pub(crate) fn letter_of(statement: &Statement, formats: &[Format], seek: &Seek) -> Letter
    requires formats { Each (SuitsFormats formats.now) statement.now.accesses }
    requires level { IsLevel statement.now formats.now seek.now }
    ensures { result ≡ letter_of statement.now formats.now seek.now }
{
    let access = &statement.accesses.as_slice()[seek.access];
    let format = &formats[access.tensor];
    format.letter(seek.level)
}

/// The variable of the level that is sought.
pub(crate) fn variable_of(statement: &Statement, formats: &[Format], seek: &Seek) -> usize
    requires numbered { IsNumbered statement.now }
    requires formats { Each (SuitsFormats formats.now) statement.now.accesses }
    requires level { IsLevel statement.now formats.now seek.now }
    ensures value { result ≡ (layout_of statement.now formats.now).variable seek.now.access seek.now.level }
    ensures within { result < length statement.now.vars }
{
    let access = &statement.accesses.as_slice()[seek.access];
    let format = &formats[access.tensor];
    access.vars.as_slice()[format.mode(seek.level)]
}

/// Whether levels of this kind are gone over by their positions, in the order of the coordinates.
pub(crate) fn is_iterated(letter: Letter) -> bool
    ensures { result ≡ is_iterated letter }
{
    props_of(letter).ordered && caps_of(letter).position_iteration
}

/// Whether the entries of the level are gathered into a scratch list: it has no order, and its access is one of those that are named.
pub(crate) fn is_listed(
    statement: &Statement,
    formats: &[Format],
    gathered: &[usize],
    seek: &Seek,
) -> bool
    requires formats { Each (SuitsFormats formats.now) statement.now.accesses }
    requires level { IsLevel statement.now formats.now seek.now }
    ensures { result ≡ is_listed statement.now formats.now gathered.now seek.now }
{
    !props_of(letter_of(statement, formats, seek)).ordered && gathered.contains(&seek.access)
}

/// Whether a cursor goes over the level.
pub(crate) fn goes_over(
    statement: &Statement,
    formats: &[Format],
    gathered: &[usize],
    seek: &Seek,
) -> bool
    requires formats { Each (SuitsFormats formats.now) statement.now.accesses }
    requires level { IsLevel statement.now formats.now seek.now }
    ensures { result ≡ goes_over statement.now formats.now gathered.now seek.now }
{
    is_iterated(letter_of(statement, formats, seek))
        || is_listed(statement, formats, gathered, seek)
}
