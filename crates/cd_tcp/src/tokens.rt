use mio::Token;

// A token has the kind of what it names in its lowest two bits, then its key, and its generation in the upper half.
const KINDS: usize = 4;

const MAX_KEY: usize = (1 << 30) - 1;

const GENERATIONS: usize = 1 << 32;

/// A place in a store, and the number of its user: of another user it is another one.
#[derive(Clone, Copy, Debug, PartialEq, Eq, Drop)]
pub struct Id {
    pub key: usize,
    pub generation: u32,
}

/// What an event of the poll is about.
#[derive(Clone, Copy, Debug, PartialEq, Eq)]
pub enum Subject {
    Listener(Id),
    Parked(Id),
    Leaving(Id),
    Waker,
}

impl Subject {
    /// The number by which the poll names it.
    pub fn token(self) -> Token {
        match self {
            Subject::Listener(id) => Token(number_of(0, id)),
            Subject::Parked(id) => Token(number_of(1, id)),
            Subject::Leaving(id) => Token(number_of(2, id)),
            Subject::Waker => Token(3),
        }
    }

    /// What is named so.
    pub fn of(token: Token) -> Subject {
        let Token(number) = token;
        match number % KINDS {
            0 => Subject::Listener(id_of(number)),
            1 => Subject::Parked(id_of(number)),
            2 => Subject::Leaving(id_of(number)),
            _ => Subject::Waker,
        }
    }
}

// A store has fewer than `MAX_KEY` places.
fn number_of(kind: usize, id: Id) -> usize {
    let key = id.key.min(MAX_KEY);
    kind.min(KINDS - 1) + key * KINDS + id.generation as usize * GENERATIONS
}

fn id_of(number: usize) -> Id {
    Id {
        key: number / KINDS % (MAX_KEY + 1),
        generation: (number / GENERATIONS) as u32,
    }
}
