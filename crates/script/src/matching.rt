// Which form a line has, or which of its words fits none.
use crate::forms::{FORMS, Form, Says, Slot};
use crate::tokens::Token;
use crate::types::{Fault, ReadFault, Wrong};

// What is wrong, and at which word, counted from 0.
#[derive(Clone, Copy)]
pub(crate) struct Misfit {
    pub(crate) word: usize,
    pub(crate) wrong: Wrong,
}

impl Misfit {
    pub(crate) fn in_line(self, line: u32) -> ReadFault {
        let Misfit { word, wrong } = self;
        ReadFault::Wrong(Fault {
            line: Some(line),
            word,
            wrong,
        })
    }
}

impl Slot {
    // May the token stand here. Whether a party is a node is asked later.
    fn fits(self, token: Token) -> bool {
        match (self, token) {
            (Slot::Is(wanted), Token::Word(word)) => wanted == word,
            (Slot::Number, Token::Number(_)) => true,
            (Slot::Party | Slot::Node | Slot::Other, Token::Party { .. }) => true,
            (Slot::Name | Slot::Digits, Token::Unknown) => true,
            (Slot::Digits, Token::Number(_) | Token::TooLarge) => true,
            _ => false,
        }
    }

    // Why the token, or the end of the line, may not stand here, where it may not.
    fn wrong_with(self, token: Option<Token>) -> Wrong {
        match (self, token) {
            (_, None) => Wrong::EndsEarly,
            (Slot::Number, Some(Token::TooLarge)) => Wrong::TooLarge,
            (Slot::Number, _) => Wrong::NotANumber,
            (Slot::Party | Slot::Node | Slot::Other, Some(Token::Unknown)) => Wrong::NoParty,
            (Slot::Name, Some(Token::Party { .. })) => Wrong::NameTaken,
            (Slot::Name, _) => Wrong::NotAName,
            _ => Wrong::CannotStand,
        }
    }

    // A party has to be of the kind that stands here.
    fn check_kind(self, token: Token) -> Result<(), Wrong> {
        match (self, token) {
            (Slot::Node, Token::Party { is_node: false, .. }) => Err(Wrong::NotANode),
            (Slot::Other, Token::Party { is_node: true, .. }) => Err(Wrong::IsANode),
            _ => Ok(()),
        }
    }
}

impl Form {
    // How many words from the first on may stand where they do.
    fn depth(self, tokens: &[Token]) -> usize {
        self.slots
            .iter()
            .zip(tokens)
            .take_while(|(slot, token)| slot.fits(**token))
            .count()
    }

    fn is_whole(self, tokens: &[Token]) -> bool {
        tokens.len() == self.slots.len() && self.depth(tokens) == self.slots.len()
    }

    // The first word that may not stand where it does.
    fn misfit(self, tokens: &[Token]) -> Misfit {
        let word = self.depth(tokens);
        let wrong = match self.slots.get(word) {
            Some(slot) => slot.wrong_with(tokens.get(word).copied()),
            None => Wrong::CannotStand,
        };
        Misfit { word, wrong }
    }

    // Each party has to be of the kind that its slot wants.
    fn check_kinds(self, tokens: &[Token]) -> Result<(), Misfit> {
        for (word, (slot, token)) in self.slots.iter().zip(tokens).enumerate() {
            slot.check_kind(*token)
                .map_err(|wrong| Misfit { word, wrong })?;
        }
        Ok(())
    }
}

// The misfit that comes last in the line, over all forms; the first of those.
fn furthest(tokens: &[Token]) -> Misfit {
    let start = Misfit {
        word: 0,
        wrong: Wrong::CannotStand,
    };
    FORMS.iter().fold(start, |best, form| {
        let next = form.misfit(tokens);
        if next.word > best.word { next } else { best }
    })
}

// What a line says by its form, or what is wrong with it.
pub(crate) fn said_by(tokens: &[Token]) -> Result<Says, Misfit> {
    let form = FORMS
        .iter()
        .find(|form| form.is_whole(tokens))
        .ok_or_else(|| furthest(tokens))?;
    form.check_kinds(tokens)?;
    Ok(form.says)
}
