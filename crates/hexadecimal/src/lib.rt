#![tactic(auto)]
// Lower-case hexadecimal, part by part, as the program reads it ("The write list", the last paragraph of document 01).
ghost use Rattle.std.specs.Prelude.{◌≡◌, length};
ghost use Rattle.hexadecimal.specs.Typing.{told, start, afterwards, put, fed_one, fed};

// What a character is.
#[derive(Clone, Copy, Debug, PartialEq, Eq)]
pub enum Character {
    Digit(u8),
    LineFeed,
    Another,
}

// What was typed so far: how many whole bytes were formed; the first digit of the byte being formed, or none; and whether another
// character was met, after which nothing changes any more.
#[derive(Clone, Copy, Debug, PartialEq, Eq)]
pub struct Typing {
    pub formed: u64,
    pub digit: Option<u8>,
    pub wrong: bool,
}

#[tactic(auto, using(crate::proofs::TypingLaws::laws))]
pub fn character_of(c: u8) -> Character
    ensures { result ≡ told c }
{
    match c {
        b'0'..=b'9' => Character::Digit(c - b'0'),
        b'a'..=b'f' => Character::Digit(c - b'a' + 10),
        b'\n' => Character::LineFeed,
        _ => Character::Another,
    }
}

// Nothing typed yet.
pub fn nothing() -> Typing
    ensures { result ≡ start }
{
    Typing {
        formed: 0,
        digit: None,
        wrong: false,
    }
}

// A byte at a position, if the list goes so far. (The contract of `get_mut` leaves open what the list then holds.)
fn store(at: u64, byte: u8, list: &mut [u8])
    ensures { list.new ≡ put list.old at byte }
{
    if at < list.len() as u64 {
        list[at as usize] = byte;
    }
}

// One more character. A second digit makes a byte; past its greatest value the number of bytes stays as it is.
fn one(c: u8, typing: Typing, list: &mut [u8]) -> Typing
    ensures { afterwards result list.new ≡ fed_one c typing list.old }
{
    if typing.wrong {
        return typing;
    }
    match (character_of(c), typing.digit) {
        (Character::Digit(digit), Some(first)) => {
            store(typing.formed, (first % 16) * 16 + digit % 16, list);
            Typing {
                formed: typing.formed.saturating_add(1),
                digit: None,
                wrong: false,
            }
        }
        (Character::Digit(digit), None) => Typing {
            digit: Some(digit),
            ..typing
        },
        (Character::LineFeed, _) => typing,
        (Character::Another, _) => Typing {
            wrong: true,
            ..typing
        },
    }
}

// Types on with one more part of the text.
pub fn feed(text: &[u8], mut typing: Typing, list: &mut [u8]) -> Typing
    ensures { afterwards result list.new ≡ fed text.now typing list.old }
{
    for &c in text {
        typing = one(c, typing, list);
    }
    typing
}
