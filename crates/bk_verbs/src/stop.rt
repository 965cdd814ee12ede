//! Why the program stops before its work is done, and the line that says so.

ghost use Rattle.std.specs.Prelude.{◌≡◌, ◌⊎◌, ◌≤◌, ◌++◌, codes, decimal, IfOk, OnOk, OnErr};
ghost use Rattle.bk_io.specs.Counts.{HasCause, Rose};
ghost use Rattle.bk_verbs.specs.declared.stop.Stop.TheVariants.{WriteFault};
ghost use Rattle.bk_io.specs.Pieces.{written_with, WroteFront, PutWhole};
ghost use Rattle.bk_verbs.specs.Causes.{stop_of_sink};
ghost use Rattle.bk_verbs.specs.Frames.{Appends};
ghost use Rattle.bk_image.specs.Faults.{place};
ghost use Rattle.bk_verbs.specs.Stops.{status_of_stop, fault_name, refusal_text, place_text, stop_text, Reports, IsCutShort};

use crate::status::Status;
use bk_cli::WordsFault;
use bk_image::LoadFault;
use bk_io::{Sink, SinkFault, Text, put_all};
use itoa::Buffer;
use std::alloc::{AllocError, AllocFailed, Global};

/// The number of the fault that a text passes a limit.
const FAULT_OF_LIMITS: u8 = 13;

/// Why the program stops before its work is done.
#[derive(Drop)]
pub enum Stop {
    /// The words are none of the program's.
    Usage,
    /// The file with this name is not there.
    Missing(Text),
    /// The file with this name has this fault at this place: a byte, or a line of a project file.
    Refused(u8, usize, Text),
    /// The file, or the obligation, with this name passes this limit.
    Limit(u8, Text),
    /// The obligation with this name is the first that is not proved.
    Unproved(Text),
    /// The last component, with this name, is no implementation.
    Incomplete(Text),
    /// The line of the call script with this number, from 1, is at fault.
    BadCalls(u32),
    /// The file holds no image.
    BadImage(LoadFault),
    /// A file could not be read.
    ReadFault,
    /// The output could not be written.
    WriteFault,
    /// There was no memory.
    Memory,
}

impl From<SinkFault> for Stop {
    ghost from_gives = { λ fault stop. stop ≡ stop_of_sink fault };

    fn from(fault: SinkFault) -> Self {
        match fault {
            SinkFault::Failed => Stop::WriteFault,
            SinkFault::Memory => Stop::Memory,
        }
    }
}

impl From<WordsFault> for Stop {
    ghost use Rattle.bk_verbs.specs.Causes.{stop_of_words};

    ghost from_gives = { λ fault stop. stop ≡ stop_of_words fault };

    fn from(fault: WordsFault) -> Self {
        match fault {
            WordsFault::Refused => Stop::Usage,
            WordsFault::Memory => Stop::Memory,
        }
    }
}

impl From<bk_code::Memory> for Stop {
    ghost use Rattle.bk_verbs.specs.declared.stop.Stop.TheVariants.{Memory};

    ghost from_gives = { λ _ stop. stop ≡ Memory };

    fn from(_: bk_code::Memory) -> Self {
        Stop::Memory
    }
}

impl From<bk_io::Memory> for Stop {
    ghost use Rattle.bk_verbs.specs.declared.stop.Stop.TheVariants.{Memory};

    ghost from_gives = { λ _ stop. stop ≡ Memory };

    fn from(_: bk_io::Memory) -> Self {
        Stop::Memory
    }
}

impl From<AllocError> for Stop {
    ghost use Rattle.bk_verbs.specs.declared.stop.Stop.TheVariants.{Memory};

    ghost from_gives = { λ _ stop. stop ≡ Memory };

    fn from(_: AllocError) -> Self {
        Stop::Memory
    }
}

impl<T: Drop> From<AllocFailed<T>> for Stop {
    ghost use Rattle.bk_verbs.specs.declared.stop.Stop.TheVariants.{Memory};

    ghost from_gives = { λ _ stop. stop ≡ Memory };

    fn from(_: AllocFailed<T>) -> Self {
        Stop::Memory
    }
}

impl Stop {
    /// Writes the line that says why the program stops, and answers how it ends.
    #[tactic(auto, using(crate::proofs::Frames::appends_text, crate::proofs::Frames::appends_front))]
    pub fn report<K: Sink>(&self, alloc: Global, out: &mut K) -> Status
        ensures reports { Reports self.now result (K.written out.old) (K.written out.new) }
        ensures piece { IsCutShort result ⊎ PutWhole (stop_text self.now) (K.pieces out.old) (K.pieces out.new) }
        ensures later { K.faults out.old ≤ K.faults out.new }
        ensures appends { Appends (K.written out.old) (K.written out.new) }
        ensures failed { result ≡ Status.WriteFault →
            (self.now ≡ WriteFault) ⊎ Rose (K.faults out.old) (K.faults out.new) }
    {
        match self.write(alloc, out) {
            Ok(()) => self.status(),
            Err(SinkFault::Failed) => Status::WriteFault,
            Err(SinkFault::Memory) => Status::Memory,
        }
    }

    fn status(&self) -> Status
        ensures { result ≡ status_of_stop self.now }
    {
        match self {
            Stop::Usage => Status::Usage,
            Stop::Missing(_) => Status::Missing,
            Stop::Refused(_, _, _) | Stop::Limit(_, _) => Status::Refused,
            Stop::Unproved(_) => Status::Unproved,
            Stop::Incomplete(_) => Status::Incomplete,
            Stop::BadCalls(_) => Status::BadCalls,
            Stop::BadImage(_) => Status::BadImage,
            Stop::ReadFault => Status::ReadFault,
            Stop::WriteFault => Status::WriteFault,
            Stop::Memory => Status::Memory,
        }
    }

    fn write<K: Sink>(&self, alloc: Global, out: &mut K) -> Result<(), SinkFault>
        ensures ok { OnOk result (K.written out.new ≡ written_with (K.written out.old) (stop_text self.now)) }
        ensures err { OnErr result (WroteFront (stop_text self.now) (K.written out.old) (K.written out.new)) }
        ensures piece { OnOk result (PutWhole (stop_text self.now) (K.pieces out.old) (K.pieces out.new)) }
        ensures failed { HasCause SinkFault.Failed (K.faults out.old) (K.faults out.new) result }
    {
        let line = self.line(alloc)?;
        put_all(out, &line)?;
        Ok(())
    }

    // The line; faults of the devices and want of memory leave none.
    fn line(&self, alloc: Global) -> Result<Vec<u8>, AllocError>
        ensures { IfOk result (λ line. line.items ≡ stop_text self.now) }
    {
        let mut line = Vec::new(alloc);
        match self {
            Stop::Usage => line.extend_from_slice(b"usage: bkit VERB [FILE] [FILE] [--fuel N]\n")?,
            Stop::Missing(name) => write_named(&mut line, b"missing ", name)?,
            Stop::Refused(fault, at, name) => {
                write_refusal(&mut line, *fault, name)?;
                write_place(&mut line, *at)?;
            }
            Stop::Limit(limit, name) => {
                write_refusal(&mut line, FAULT_OF_LIMITS, name)?;
                write_limit(&mut line, *limit)?;
            }
            Stop::Unproved(name) => write_named(&mut line, b"unproved ", name)?,
            Stop::Incomplete(name) => write_named(&mut line, b"incomplete ", name)?,
            Stop::BadCalls(number) => {
                line.extend_from_slice(b"bad call line ")?;
                line.extend_from_slice(Buffer::new().format(*number).as_bytes())?;
                line.extend_from_slice(b"\n")?;
            }
            Stop::BadImage(fault) => write_bad_image(&mut line, *fault)?,
            Stop::ReadFault | Stop::WriteFault | Stop::Memory => {}
        }
        Ok(line)
    }
}

// What is said of what has this name.
fn write_named(line: &mut Vec<u8>, said: &[u8], name: &Text) -> Result<(), AllocError>
    ensures { OnOk result (line.new.items ≡ line.old.items ++ (said.now ++ name.now ++ codes "\n")) }
{
    line.extend_from_slice(said)?;
    line.extend_from_slice(name.as_bytes())?;
    line.extend_from_slice(b"\n")?;
    Ok(())
}

// The file is refused for the fault with this number.
fn write_refusal(line: &mut Vec<u8>, fault: u8, name: &Text) -> Result<(), AllocError>
    ensures { OnOk result (line.new.items ≡ line.old.items ++ refusal_text fault name.now) }
{
    line.extend_from_slice(b"refused F")?;
    line.extend_from_slice(Buffer::new().format(fault).as_bytes())?;
    line.extend_from_slice(b" ")?;
    line.extend_from_slice(name.as_bytes())?;
    Ok(())
}

// Where the fault stands, and the end of the line.
fn write_place(line: &mut Vec<u8>, at: usize) -> Result<(), AllocError>
    ensures { OnOk result (line.new.items ≡ line.old.items ++ place_text at) }
{
    line.extend_from_slice(b" at ")?;
    line.extend_from_slice(Buffer::new().format(at).as_bytes())?;
    line.extend_from_slice(b"\n")?;
    Ok(())
}

fn write_limit(line: &mut Vec<u8>, limit: u8) -> Result<(), AllocError>
    ensures { OnOk result (line.new.items ≡ line.old.items ++ (codes " limit " ++ decimal limit ++ codes "\n")) }
{
    line.extend_from_slice(b" limit ")?;
    line.extend_from_slice(Buffer::new().format(limit).as_bytes())?;
    line.extend_from_slice(b"\n")?;
    Ok(())
}

// The bytes are no image, for this cause at its place.
fn write_bad_image(line: &mut Vec<u8>, fault: LoadFault) -> Result<(), AllocError>
    ensures { OnOk result (line.new.items ≡ line.old.items ++
        (codes "bad image " ++ fault_name fault ++ codes " at " ++ decimal (place fault) ++ codes "\n")) }
{
    line.extend_from_slice(b"bad image ")?;
    line.extend_from_slice(fault_name(fault))?;
    line.extend_from_slice(b" at ")?;
    line.extend_from_slice(Buffer::new().format(place(fault)).as_bytes())?;
    line.extend_from_slice(b"\n")?;
    Ok(())
}

fn fault_name(fault: LoadFault) -> &'static [u8]
    ensures { result.now ≡ fault_name fault }
{
    match fault {
        LoadFault::Short(_) => b"Short",
        LoadFault::Magic => b"Magic",
        LoadFault::Version(_) => b"Version",
        LoadFault::BadInst(_) => b"BadInst",
        LoadFault::BadJump(_) => b"BadJump",
        LoadFault::BadSlot(_) => b"BadSlot",
        LoadFault::Stack(_) => b"Stack",
        LoadFault::Extra(_) => b"Extra",
        LoadFault::Memory => b"",
    }
}

// Where the fault stands: the wrong first bytes at 0, a wrong version at 4.
fn place(fault: LoadFault) -> usize
    ensures { result ≡ place fault }
{
    match fault {
        LoadFault::Short(at)
        | LoadFault::BadInst(at)
        | LoadFault::BadJump(at)
        | LoadFault::BadSlot(at)
        | LoadFault::Stack(at)
        | LoadFault::Extra(at) => at,
        LoadFault::Magic | LoadFault::Memory => 0,
        LoadFault::Version(_) => 4,
    }
}
