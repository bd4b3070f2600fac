// What the words of a line can be.
use crate::types::Party;
use crate::words::Keyword;
use lines::{NumberFault, number};
use std::alloc::{AllocError, Global};

// A word of a line, by what it can be.
#[derive(Clone, Copy)]
pub(crate) enum Token {
    Word(Keyword),
    Number(u32),
    TooLarge,
    Party { index: usize, is_node: bool },
    Unknown,
}

impl Token {
    // What a word is: a word of the language, a number, a party, or none of these.
    fn read(parties: &[Party], word: &[u8]) -> Token {
        if let Some(keyword) = Keyword::read(word) {
            return Token::Word(keyword);
        }
        match number(word) {
            Ok(n) => Token::Number(n),
            Err(NumberFault::TooLarge) => Token::TooLarge,
            Err(NumberFault::NotANumber) => Token::named(parties, word),
        }
    }

    // The party with a name.
    fn named(parties: &[Party], name: &[u8]) -> Token {
        for (index, party) in parties.iter().enumerate() {
            if party.name.as_slice() == name {
                return Token::Party {
                    index,
                    is_node: party.is_node,
                };
            }
        }
        Token::Unknown
    }
}

// The words of a line, in order. The type of these steps has closures in it and no name, so no function can give them: `word_at`
// takes them too, and so does the program that tells of a line.
pub(crate) fn tokens_of(
    heap: Global,
    parties: &[Party],
    line: &[u8],
) -> Result<Vec<Token>, AllocError> {
    line.split(|b| *b == b' ')
        .filter(|word| !word.is_empty())
        .map(|word| Token::read(parties, word))
        .collect(heap)
}

// The text of a word of a line; nothing where it has no such word.
pub fn word_at(line: &[u8], at: usize) -> &[u8] {
    line.split(|b| *b == b' ')
        .filter(|word| !word.is_empty())
        .nth(at)
        .unwrap_or(&[])
}
