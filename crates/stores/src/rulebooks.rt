// Books as stores of rules.
ghost use Rattle.std.specs.Prelude.{◌≡◌, true, Ok};
ghost use Rattle.grammar.specs.Items.{book as grammar_book};
ghost use Rattle.grammar.specs.Texts.{all_bytes};
ghost use Rattle.books.specs.Begins.{rule_places, item_texts};
ghost use Rattle.reading.specs.Views.{seen};
ghost use Rattle.stores.specs.Begun.{begun, image_rules};
ghost use Rattle.stores.specs.Fitting.{fit_book};

use crate::begins::Begins;
use crate::texts::Texts;
use grammar::faults::BookFault;
use grammar::limits::HEADER;

// The bytes of a book, which the caller lends.
#[derive(Clone, Copy)]
pub struct Image<'a> {
    bytes: &'a [u8],
}

impl<'a> Image<'a> {
    pub fn new(bytes: &'a [u8]) -> Image<'a>
        ensures { result.bytes.now ≡ bytes.now }
    {
        Image { bytes }
    }
}

// The rules of a book, over its bytes.
#[derive(Clone, Copy)]
pub struct RuleBook<'a, 'b> {
    image: &'a Image<'b>,
    begins: Begins,
    ghost known: { all_bytes image.now.bytes.now ≡ true },
    ghost placed: { Ok (begun begins) ≡ seen (rule_places 0) (grammar_book image.now.bytes.now) },
}

impl<'a, 'b> RuleBook<'a, 'b> {
    // Reads the book once, from its first byte to its last.
    pub fn open(image: &'a Image<'b>) -> Result<RuleBook<'a, 'b>, BookFault>
        ensures { seen (λ b. image_rules b.image.now) result ≡ seen item_texts (grammar_book image.now.bytes.now) }
    {
        let begins = Begins::read(image.bytes)?;
        Ok(RuleBook { image, begins })
    }
}

impl<'a, 'b> Texts for RuleBook<'a, 'b> {
    ghost rules = { λ b. image_rules b.image.now };

    ghost fit = { λ b. fit_book b.image.now.bytes.now b.known };

    fn count(&self) -> u16 {
        self.begins.count()
    }

    // By the length in its header.
    fn text(&self, rule: u16) -> Option<&[u8]> {
        let place = self.begins.place(rule)? as usize;
        let bytes = self.image.bytes;
        let length = u16::from_be_bytes([bytes[place + 3], bytes[place + 4]]) as usize;
        Some(&bytes[place..place + HEADER + length])
    }
}
