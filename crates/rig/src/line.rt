ghost use Rattle.std.specs.Prelude.{◌≤◌, IfSome};

use crate::banks::{CELLS, RECORDS};
use crate::numbers::{decimal, hex_byte};
use crate::trouble::Trouble;
use bank::Kind;
use decoder::Address;
use script::{DecoderName, Fit, Request};
use std::alloc::{AllocError, Global};

/// The lines by which decoders are fitted.
pub(crate) const FITTING: &str =
    "fit mobile short A, fit mobile long A, fit basic A or fit extended A";

/// How much calls are lent: the first records of each bank and the first cells of the memory.
#[derive(Clone, Copy)]
pub struct Lent {
    pub mobiles: usize,
    pub basics: usize,
    pub extendeds: usize,
    pub cells: usize,
}

/// What a line of a script asks for.
#[derive(Drop)]
pub enum Line {
    New,
    Lend(Lent),
    Fit(Fit),
    Start,
    Take(Vec<u8>),
    Ask(DecoderName, Request),
}

/// What divides words.
const BLANKS: [char; 2] = [' ', '\t'];

/// How many words a call has at most, but for `take`, and one more, by which a line of too many is seen.
const WORDS: usize = 6;

/// The first word of a text and what stands behind it, if it has one.
fn first_word(text: &str) -> Option<(&str, &str)> {
    let text = text.trim_start_matches(BLANKS);
    if text.is_empty() {
        return None;
    }
    Some(text.split_once(BLANKS).unwrap_or((text, "")))
}

/// The first words of a text, in a place that the caller lends.
// No list of all words: a line may be as long as a script.
fn first_words<'a, 'b>(text: &'a str, place: &'b mut [&'a str; WORDS]) -> &'b [&'a str] {
    let mut rest = text;
    for found in place.iter_mut() {
        let Some((word, behind)) = first_word(rest) else {
            break;
        };
        *found = word;
        rest = behind;
    }
    let count = place.iter().filter(|word| !word.is_empty()).count();
    &place[..count.min(WORDS)]
}

/// A number up to `most`.
fn up_to(most: usize, word: &str) -> Option<usize>
    ensures { IfSome result (λ n. n ≤ most) }
{
    decimal(word).filter(|number| *number <= most)
}

// No `FromStr` of `Kind`: this is its one reader, and an error would say no more than `None`.
fn name(kind: &str, number: &str) -> Option<DecoderName> {
    let kind = match kind {
        "mobile" => Kind::Mobile,
        "basic" => Kind::Basic,
        "extended" => Kind::Extended,
        _ => return None,
    };
    let number = decimal::<u16>(number)?;
    Some(DecoderName {
        kind,
        number: usize::from(number),
    })
}

fn fitting(words: &[&str]) -> Option<Fit> {
    match words {
        ["mobile", "short", address] => Some(Fit::Mobile(Address::Short(decimal(address)?))),
        ["mobile", "long", address] => Some(Fit::Mobile(Address::Long(decimal(address)?))),
        ["basic", address] => Some(Fit::Basic(decimal(address)?)),
        ["extended", address] => Some(Fit::Extended(decimal(address)?)),
        _ => None,
    }
}

/// What is asked of one decoder.
fn request(words: &[&str]) -> Option<Line> {
    let (kind, number, request) = match words {
        ["set", kind, number, variable, value] => {
            let variable = decimal(variable)?;
            let value = decimal(value)?;
            (kind, number, Request::Set { variable, value })
        }
        ["state", kind, number] => (kind, number, Request::State),
        ["variable", kind, number, variable] => {
            (kind, number, Request::Variable(decimal(variable)?))
        }
        ["function", kind, number, function] => {
            (kind, number, Request::Function(decimal(function)?))
        }
        ["binary", kind, number, state] => { (kind, number, Request::BinaryState(decimal(state)?)) }
        _ => return None,
    };
    Some(Line::Ask(name(kind, number)?, request))
}

fn lending(mobiles: &str, basics: &str, extendeds: &str, cells: &str) -> Option<Line> {
    Some(Line::Lend(Lent {
        mobiles: up_to(RECORDS, mobiles)?,
        basics: up_to(RECORDS, basics)?,
        extendeds: up_to(RECORDS, extendeds)?,
        cells: up_to(CELLS, cells)?,
    }))
}

/// The bytes that all words behind the first name, if each names one.
fn block(heap: Global, text: &str) -> Result<Option<Vec<u8>>, AllocError> {
    text.split(BLANKS)
        .filter(|word| !word.is_empty())
        .skip(1)
        .map(|word| hex_byte(word))
        .collect(heap)
}

/// The call that a text is, if it is one, by its first words.
fn call(heap: Global, text: &str, words: &[&str]) -> Result<Option<Line>, AllocError> {
    match words {
        ["new"] => Ok(Some(Line::New)),
        ["start"] => Ok(Some(Line::Start)),
        ["lend", mobiles, basics, extendeds, cells] => {
            Ok(lending(mobiles, basics, extendeds, cells))
        }
        ["fit", fit @ ..] => Ok(fitting(fit).map(Line::Fit)),
        ["take", ..] => Ok(block(heap, text)?.map(Line::Take)),
        _ => Ok(request(words)),
    }
}

/// What a line that is no call should be, by its first word.
fn expected(words: &[&str]) -> &'static str {
    match words {
        ["new", ..] => "new alone",
        ["lend", ..] => "lend M B E C, three numbers up to 32 and one up to 32768",
        ["fit", ..] => FITTING,
        ["start", ..] => "start alone",
        ["take", ..] => "take and bytes, each of two hexadecimal digits",
        ["set", ..] => "set KIND NUMBER CV VALUE, VALUE up to 255",
        ["state", ..] => "state KIND NUMBER",
        ["variable", ..] => "variable KIND NUMBER CV",
        ["function", ..] => "function KIND NUMBER F",
        ["binary", ..] => "binary KIND NUMBER N",
        _ => "new, lend, fit, start, take, set, state, variable, function or binary",
    }
}

impl Line {
    /// Reads a line of a script, if it has a word.
    pub(crate) fn read(heap: Global, number: usize, line: &str) -> Result<Option<Line>, Trouble> {
        // What stands behind `#` is a comment.
        let text = line.split_once('#').map_or(line, |(text, _)| text);
        let mut place = [""; WORDS];
        let words = first_words(text, &mut place);
        if words.is_empty() {
            return Ok(None);
        }
        let Some(call) = call(heap, text, words)? else {
            return Err(Trouble::BadLine {
                line: number,
                expected: expected(words),
            });
        };
        Ok(Some(call))
    }
}
