// The words that a script is written with. Functions and no `TryFrom`: two of the types belong to crates that know no script, and all three
// are read in one way.
ghost use Rattle.std.specs.Prelude.{◌≡◌};
ghost use Rattle.script.specs.Keywords.{name_of, rule_of, face_of};

use explained::chosen::Chosen;
use moments::pair::Face;

// A command by its name.
#[derive(Clone, Copy, PartialEq, Eq, Debug)]
pub enum Name {
    Rules,
    Enter,
    Check,
}

// The command that a word names.
pub fn name_of(word: &[u8]) -> Option<Name>
    ensures { result ≡ name_of word.now }
{
    match word {
        b"rules" => Some(Name::Rules),
        b"enter" => Some(Name::Enter),
        b"check" => Some(Name::Check),
        _ => None,
    }
}

// The yield rule that a word names.
pub fn rule_of(word: &[u8]) -> Option<Chosen>
    ensures { result ≡ rule_of word.now }
{
    match word {
        b"yield" => Some(Chosen::Yield),
        b"box" => Some(Chosen::Box),
        _ => None,
    }
}

// The face that a word names.
pub fn face_of(word: &[u8]) -> Option<Face>
    ensures { result ≡ face_of word.now }
{
    match word {
        b"bottom" => Some(Face::Bottom),
        b"top" => Some(Face::Top),
        _ => None,
    }
}
