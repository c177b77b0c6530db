#![tactic(auto)]

ghost use Rattle.std.specs.Prelude.{◌≡◌, ◌<◌, length};
ghost use Rattle.books.specs.Books.{book_or_empty};
ghost use Rattle.mechanism.specs.Promises.{step_front, Within};
ghost use Rattle.script.specs.Plays.{Begins, moves_on, starts, after, mic_of, told, plain_told, played, script_sealing, script_stepping};
ghost use Rattle.std.proofs.Common.{rules};
ghost use Rattle.std.proofs.lemmas.Slice.Eq.{bytes_eq-Decides};
ghost use Rattle.std.specs.Str.{bytes_eq};

use books::Book;
use mechanism::{Identity, Mechanism, Sealer, Side, may_seal};
use sspi::{ErrorKind, Fault, Layer, SecurityStatus};

// A mechanism that plays a book, entry by entry.
#[derive(Drop)]
pub struct Script<'a> {
    book: Book<'a>,
    pos: usize,
    session: bool,
    count: u32,
}

impl<'a> Script<'a> {
    // A script of a book, of an empty one if the bytes are no book.
    pub fn new(book: &'a [u8]) -> Script<'a>
        ensures { Begins result (book_or_empty book.now) }
    {
        Script {
            book: Book::or_empty(book),
            pos: 0,
            session: false,
            count: 0,
        }
    }

    // Moves on behind an entry that was answered, unless it was refused for want of room.
    fn move_on(&mut self, answer: Result<(SecurityStatus, usize), Fault>)
        requires { self.old.pos < 65536 }
        ensures { self.new ≡ after self.old (moves_on answer) (starts answer) }
    {
        match answer {
            Err(fault) if fault.kind == ErrorKind::BufferTooSmall => {}
            Ok((SecurityStatus::Ok, _)) => {
                self.pos += 1;
                self.session = true;
            }
            _ => self.pos += 1,
        }
    }

    // How many identities were allowed.
    pub fn count(&self) -> u32
        ensures { result ≡ self.now.count }
    {
        self.count
    }
}

// What an entry says: a status and a token, or a fault.
#[tactic(auto, using(std::proofs::lemmas::Bool::Decides::nat_tests, std::proofs::lemmas::Grind::common_steps))]
fn tell(entry: &[u8]) -> Result<(SecurityStatus, &[u8]), Fault>
    ensures { plain_told result ≡ told entry.now }
{
    let Some((number, token)) = entry.split_first_chunk() else {
        return Err(Layer::Mechanism.fault(ErrorKind::InternalError));
    };
    let number = u32::from_be_bytes(*number);
    match SecurityStatus::try_from(number) {
        Ok(status) => Ok((status, token)),
        Err(_) => {
            let kind = ErrorKind::try_from(number).unwrap_or(ErrorKind::InternalError);
            Err(Layer::Mechanism.fault(kind))
        }
    }
}

// Answers an entry; its token goes to the front of `work`.
fn play(entry: &[u8], work: &mut [u8]) -> Result<(SecurityStatus, usize), Fault>
    ensures answer { played entry.now (length work.old) ≡ step_front result work.new }
    ensures within { Within result (length work.old) }
{
    let (status, token) = tell(entry)?;
    let n = token.len();
    // The room is tested here, since nothing is known of what is written through `get_mut(..n)`.
    if work.len() < n {
        return Err(Layer::Mechanism.fault(ErrorKind::BufferTooSmall));
    }
    work[..n].copy_from_slice(token);
    Ok((status, n))
}

impl<'a> Sealer for Script<'a> {
    ghost sealing = { script_sealing };

    ghost lawful = { Prim.search (rules, bytes_eq-Decides) };

    fn make(&mut self, data: &[u8], mic: &mut [u8; 160]) -> Result<usize, Fault> {
        may_seal(data, self.session)?;
        let n = data.len();
        mic[0] = 0x53;
        mic[1..n + 1].copy_from_slice(data);
        Ok(n + 1)
    }

    fn check(&mut self, data: &[u8], mic: &[u8]) -> Result<(), Fault> {
        may_seal(data, self.session)?;
        if takes(data, mic) {
            Ok(())
        } else {
            Err(Layer::Mechanism.fault(ErrorKind::MessageAltered))
        }
    }
}

// Whether this is the MIC over the data.
fn takes(data: &[u8], mic: &[u8]) -> bool
    ensures { result ≡ bytes_eq (mic_of «data».now) mic.now }
{
    matches!(mic, [0x53, rest @ ..] if data == rest)
}

impl<'a> Mechanism for Script<'a> {
    ghost stepping = { script_stepping };

    ghost lawful_steps = { Prim.search rules };

    fn fresh(&mut self, kdc: Option<u32>) {
        self.pos = 0;
        self.session = false;
    }

    fn step(
        &mut self,
        side: Side,
        flags: u32,
        identity: Option<&Identity>,
        input: &[u8],
        work: &mut [u8],
    ) -> Result<(SecurityStatus, usize), Fault> {
        let Some(entry) = self.book.entry(self.pos) else {
            return Err(Layer::Mechanism.fault(ErrorKind::OutOfSequence));
        };
        let answer = play(entry, work);
        self.move_on(answer);
        answer
    }

    fn name(&self, name: &mut [u8; 64]) -> Result<usize, Fault> {
        name[0..6].copy_from_slice(b"flat12");
        Ok(6)
    }

    fn allow(&mut self, identity: &Identity, new_set: bool) -> Result<(), Fault> {
        self.count = self.count.wrapping_add(1);
        Ok(())
    }
}
