// Rules and queries.
ghost use Rattle.std.specs.Prelude.{◌≡◌, ◌+◌, ◌^◌, ◌<◌, ◌≤◌, length, drop, IfOk};
ghost use Rattle.grammar.specs.Singles.{header as grammar_header, rule as grammar_rule, query as grammar_query};
ghost use Rattle.reading.specs.Views.{seen, header_view, rule_view, rule_shown, query_view, query_shown, both_views, parts_read, rule_under, query_under, frame_bytes, single_header, single_end};

use crate::commands::Reader;
use crate::headers::Header;
use grammar::bytes::{QUERY, RULE};
use grammar::faults::{CommandFault, RuleFault, SingleFault};
use grammar::limits::{HEADER, LONGEST, MOST_GOALS, MOST_VARIABLES};
use terms::Form;

// A rule in the caller's bytes.
#[derive(Clone, Copy)]
pub struct Rule<'a> {
    pub place: usize,
    pub variables: u8,
    pub goals: u8,
    pub head: &'a [u8],
    pub head_place: usize,
    // the goals, one after the other
    pub body: &'a [u8],
    pub body_place: usize,
}

// A query in the caller's bytes.
#[derive(Clone, Copy)]
pub struct Query<'a> {
    pub variables: u8,
    pub goals: u8,
    // the goals, one after the other
    pub body: &'a [u8],
    pub body_place: usize,
}

impl<'a> Header<'a> {
    // The header that stands where a reader does.
    pub(crate) fn read(from: &Reader<'a>) -> Result<Header<'a>, CommandFault>
        ensures value { seen header_view result ≡ grammar_header from.now.place (drop 1 from.now.bytes.now) }
        ensures place { IfOk result (λ h. h.place ≡ from.now.place) }
    {
        let place = from.place;
        let [_, variables, goals, high, low, rest @ ..] = from.bytes else {
            return Err(CommandFault::Operands { place });
        };
        Ok(Header {
            place,
            variables: *variables,
            goals: *goals,
            size: u16::from_be_bytes([*high, *low]),
            rest,
        })
    }

    // The frame of the terms.
    fn frame(&self) -> Result<Reader<'a>, RuleFault>
        ensures value { seen (λ r. r.bytes.now) result ≡ frame_bytes self.now.place (header_view self.now) }
        ensures place { IfOk result (λ r. r.place ≡ self.now.place + 5) }
    {
        let place = self.place;
        let size = usize::from(self.size);
        if self.variables > MOST_VARIABLES {
            return Err(RuleFault::Variables { place });
        }
        if self.goals > MOST_GOALS {
            return Err(RuleFault::Goals { place });
        }
        if size > LONGEST || size > self.rest.len() {
            return Err(RuleFault::Length { place });
        }
        Ok(Reader {
            bytes: &self.rest[..size],
            place: place + HEADER,
        })
    }

    // The header of a rule or a query that stands by itself and begins with this byte.
    fn single(bytes: &'a [u8], byte: u8) -> Result<Header<'a>, SingleFault>
        ensures value { seen header_view result ≡ single_header byte bytes.now }
        ensures place { IfOk result (λ h. h.place ≡ 0) }
    {
        match bytes {
            [first, ..] if *first == byte => Ok(Header::read(&Reader::new(bytes))?),
            _ => Err(SingleFault::Start { place: 0 }),
        }
    }

    // The bytes end with the terms under this header.
    fn end(&self) -> Result<(), SingleFault>
        ensures { result ≡ single_end (header_view self.now) }
    {
        let size = usize::from(self.size);
        if self.rest.len() > size {
            return Err(SingleFault::BytesLeft {
                place: HEADER + size,
            });
        }
        Ok(())
    }

    // The rule under this header.
    pub(crate) fn rule(&self) -> Result<Rule<'a>, RuleFault>
        ensures { seen rule_view result ≡ rule_under self.now.place (header_view self.now) }
    {
        let frame = self.frame()?;
        let (head, body) = parts(frame.bytes, frame.place, self.variables, 1, self.goals)?;
        Ok(Rule {
            place: self.place,
            variables: self.variables,
            goals: self.goals,
            head,
            head_place: frame.place,
            body,
            body_place: frame.place + head.len(),
        })
    }

    // The query under this header, which stands at the front.
    fn query(&self) -> Result<Query<'a>, RuleFault>
        requires { self.now.place ≡ 0 }
        ensures { seen query_view result ≡ query_under (header_view self.now) }
    {
        let frame = self.frame()?;
        let (_, body) = parts(frame.bytes, frame.place, self.variables, 0, self.goals)?;
        Ok(Query {
            variables: self.variables,
            goals: self.goals,
            body,
            body_place: HEADER,
        })
    }
}

// The bytes of the head, which has so many terms, and of the goals, in a frame that begins at `place`. It takes the bytes
// apart from a reader, since the proof learns only from a parameter that is a slice that each of them is below 256.
fn parts<'a>(
    frame: &'a [u8],
    place: usize,
    variables: u8,
    heads: u8,
    goals: u8,
) -> Result<(&'a [u8], &'a [u8]), RuleFault>
    requires { place + length frame.now < 2 ^ 64 }
    ensures value { seen both_views result ≡ parts_read variables heads goals place frame.now }
    ensures within { IfOk result (λ x. length x.0.now ≤ length frame.now) }
{
    let mut reader = Reader {
        bytes: frame,
        place,
    };
    reader.terms(Form::Rules, variables, heads)?;
    let size = reader.place - place;
    reader.terms(Form::Rules, variables, goals)?;
    reader.finish()?;
    Ok(frame.split_at(size))
}

// Reads a rule that stands by itself.
pub fn read_rule<'a>(bytes: &'a [u8]) -> Result<Rule<'a>, SingleFault>
    ensures { seen rule_view result ≡ seen (rule_shown 0) (grammar_rule bytes.now) }
{
    let header = Header::single(bytes, RULE)?;
    let rule = header.rule()?;
    header.end()?;
    Ok(rule)
}

// Reads a query. The three steps of read_rule differ in the byte, the method and the type, so that a function for both
// would be longer than they are.
pub fn read_query<'a>(bytes: &'a [u8]) -> Result<Query<'a>, SingleFault>
    ensures { seen query_view result ≡ seen query_shown (grammar_query bytes.now) }
{
    let header = Header::single(bytes, QUERY)?;
    let query = header.query()?;
    header.end()?;
    Ok(query)
}
