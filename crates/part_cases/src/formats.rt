//! Formats and their words.
use case_files::{Answer, keyword_of};
use format_spec::{Format, FormatFault, parse_format};
use limits::greatest_order_of_tensor;
use outside::MemSink;

/// The format of a word `LETTERS` or `LETTERS:ORDER`, for a tensor of an order, or of as many modes as there are letters.
pub(crate) fn format_of(
    answer: &Answer,
    word: &str,
    order: Option<usize>,
) -> Option<Result<Format, FormatFault>> {
    let (letters, modes) = match word.split_once(':') {
        Some((letters, modes)) => (letters, Some(modes)),
        None => (word, None),
    };
    let order = order.unwrap_or(letters.len());
    if order as u64 > greatest_order_of_tensor() {
        return None;
    }
    Some(parse_format(answer.alloc(), letters, modes, order))
}

/// The format's text, written in pieces, its levels from the top, and whether all are dense.
fn tell_levels(answer: &mut Answer, format: &Format) -> Option<()> {
    let mut sink = MemSink::new(answer.alloc());
    answer.note(sink.cut_into(&[1, 4]));
    let put = format.put_format(&mut sink);
    answer.made(put)?;
    answer.tell(str::from_utf8(sink.written()).ok()?);
    for level in 1..format.order() + 1 {
        answer.tell(" ");
        answer.show(&format.letter(level));
        answer.tell(" ");
        answer.show(&format.mode(level));
    }
    answer.tell(if format.is_all_dense() {
        " all dense"
    } else {
        ""
    });
    Some(())
}

/// The format of a word for a tensor of an order, or its fault; or the dense format of this order.
pub(crate) fn tell_format(answer: &mut Answer, keyword: &str, text: &str) -> Option<()> {
    let (order, word) = keyword_of(text);
    let order = order.parse::<usize>().ok()?;
    if order as u64 > greatest_order_of_tensor() {
        return None;
    }
    if keyword == "dense" {
        let dense = Format::all_dense(answer.alloc(), order);
        return tell_levels(answer, &dense);
    }
    match format_of(answer, word, Some(order))? {
        Ok(format) => tell_levels(answer, &format),
        Err(fault) => {
            answer.show(&fault);
            Some(())
        }
    }
}
