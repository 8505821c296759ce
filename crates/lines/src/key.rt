ghost use Rattle.std.specs.Prelude.{◌≡◌};
ghost use Rattle.lines.specs.Keys.{named as named_by};
ghost use Rattle.lines.specs.Lines.{key_of, value_of};

use numbers::Text;

// What stands before the = of a line.
#[derive(Clone, Copy, PartialEq, Eq, Debug)]
pub enum Key {
    Side,
    First,
    Parts,
    Rules,
    Rows,
    End,
    Left,
    Right,
    Points,
    Edges,
    Moves,
    Move,
}

impl Key {
    // The key of this name.
    pub fn named(name: &[u8]) -> Option<Key>
        ensures { result ≡ named_by name.now }
    {
        match name {
            b"side" => Some(Key::Side),
            b"first" => Some(Key::First),
            b"parts" => Some(Key::Parts),
            b"rules" => Some(Key::Rules),
            b"rows" => Some(Key::Rows),
            b"end" => Some(Key::End),
            b"left" => Some(Key::Left),
            b"right" => Some(Key::Right),
            b"points" => Some(Key::Points),
            b"edges" => Some(Key::Edges),
            b"moves" => Some(Key::Moves),
            b"move" => Some(Key::Move),
            _ => None,
        }
    }
}

// A line: its key, with its value and its number. Each key is a case, so that a match on a line has
// the value at hand; `Key` names the case that is wanted where there is no value yet.
#[derive(Clone, Copy)]
pub enum Line<'a> {
    Side(Text<'a>),
    First(Text<'a>),
    Parts(Text<'a>),
    Rules(Text<'a>),
    Rows(Text<'a>),
    End(Text<'a>),
    Left(Text<'a>),
    Right(Text<'a>),
    Points(Text<'a>),
    Edges(Text<'a>),
    Moves(Text<'a>),
    Move(Text<'a>),
}

impl<'a> Line<'a> {
    pub fn new(key: Key, value: Text<'a>) -> Line<'a>
        ensures key { key_of result ≡ key }
        ensures value { value_of result ≡ value.entry }
    {
        match key {
            Key::Side => Line::Side(value),
            Key::First => Line::First(value),
            Key::Parts => Line::Parts(value),
            Key::Rules => Line::Rules(value),
            Key::Rows => Line::Rows(value),
            Key::End => Line::End(value),
            Key::Left => Line::Left(value),
            Key::Right => Line::Right(value),
            Key::Points => Line::Points(value),
            Key::Edges => Line::Edges(value),
            Key::Moves => Line::Moves(value),
            Key::Move => Line::Move(value),
        }
    }

    pub fn key(self) -> Key
        ensures { result ≡ key_of self.entry }
    {
        match self {
            Line::Side(_) => Key::Side,
            Line::First(_) => Key::First,
            Line::Parts(_) => Key::Parts,
            Line::Rules(_) => Key::Rules,
            Line::Rows(_) => Key::Rows,
            Line::End(_) => Key::End,
            Line::Left(_) => Key::Left,
            Line::Right(_) => Key::Right,
            Line::Points(_) => Key::Points,
            Line::Edges(_) => Key::Edges,
            Line::Moves(_) => Key::Moves,
            Line::Move(_) => Key::Move,
        }
    }

    pub fn value(self) -> Text<'a>
        ensures { result ≡ value_of self.entry }
    {
        match self {
            Line::Side(value)
            | Line::First(value)
            | Line::Parts(value)
            | Line::Rules(value)
            | Line::Rows(value)
            | Line::End(value)
            | Line::Left(value)
            | Line::Right(value)
            | Line::Points(value)
            | Line::Edges(value)
            | Line::Moves(value)
            | Line::Move(value) => value,
        }
    }
}
