//! The 26 bytes that each frame begins with, in either version of the format.

ghost use Rattle.std.specs.Prelude.{◌≡◌, ◌≢◌, ◌<◌, ◌≤◌, ◌++◌, length, drop, IsTrue, IfOk, IfSome, IfNone};
ghost use Rattle.std.specs.Result.{result_err};
ghost use Rattle.bottle_values.specs.Versions.{number_of};
ghost use Rattle.frame_codec.specs.Frame.{IsFrame, carries};
ghost use Rattle.frame_codec.specs.Header.{ack_kind, data_kind, header, header_fault, kind_of};
ghost use Rattle.frame_codec.specs.Limits.{sequence_space};
ghost use Rattle.frame_codec.specs.declared.header.Kind.TheVariants as kinds;
ghost use Rattle.frame_codec.specs.refinement.DecodedParts.{BeginsWith, code_of, framed, is_numbered_by};

use crate::fault::FrameFault;
use crate::frame::{Frame, MAX_NUMBER};
use crate::message::Msg;
use bottle_values::Version;
use byteorder::{BigEndian, ByteOrder};

/// How many bytes a header has.
pub const HEADER_LENGTH: usize = 26;

const MAGIC: [u8; 2] = [0x44, 0x50];

const DATA: u8 = 1;

const ACK: u8 = 2;

/// The version that a header's third byte names.
fn version_of(code: u8) -> Option<Version>
    ensures known { IfSome result (λ version. code ≡ number_of version) }
    ensures unknown { IfNone result ((code ≢ 1) × (code ≢ 2)) }
{
    match code {
        1 => Some(Version::One),
        2 => Some(Version::Two),
        _ => None,
    }
}

/// Whether a message follows the header.
#[derive(Clone, Copy)]
pub enum Kind {
    Data,
    Ack,
}

impl Kind {
    /// The kind that a header's fourth byte names.
    fn of_code(code: u8) -> Option<Kind>
        ensures known { IfSome result (λ kind. code ≡ code_of kind) }
        ensures unknown { IfNone result ((code ≢ data_kind) × (code ≢ ack_kind)) }
    {
        match code {
            DATA => Some(Kind::Data),
            ACK => Some(Kind::Ack),
            _ => None,
        }
    }

    /// Whether a frame of this kind may have the number.
    fn admits(self, number: u64) -> bool
        ensures { result ≡ is_numbered_by self number }
    {
        match self {
            Kind::Data => 0 < number && number <= MAX_NUMBER,
            Kind::Ack => number == 0,
        }
    }
}

/// What a header says, with its numbers in range.
#[derive(Clone, Copy)]
pub struct Header {
    pub version: Version,
    pub kind: Kind,
    pub run: u32,
    pub from: u8,
    pub to: u8,
    pub number: u64,
    pub count: u64,
}

impl Header {
    /// The frame with this header and that message.
    pub fn data(self, msg: Msg) -> Frame
        requires number { IsTrue (is_numbered_by kinds.Data self.number) }
        requires count { self.count < sequence_space }
        requires carried { IsTrue (carries self.version msg) }
        ensures { result ≡ framed self msg }
    {
        Frame::data(
            self.version,
            self.run,
            self.from,
            self.to,
            self.number,
            self.count,
            msg,
        )
    }

    /// The header of a frame.
    #[tactic(auto, unfolding(crate::specs::Header::header_fault))]
    pub fn read(bytes: &[u8]) -> Result<Header, FrameFault>
        ensures found { IfOk result (BeginsWith bytes.now) }
        ensures fault { result_err result ≡ header_fault bytes.now }
    {
        if bytes.len() < HEADER_LENGTH {
            return Err(FrameFault::Short);
        }
        if bytes[0] != MAGIC[0] || bytes[1] != MAGIC[1] {
            return Err(FrameFault::Magic);
        }
        let Some(version) = version_of(bytes[2]) else {
            return Err(FrameFault::Version);
        };
        let Some(kind) = Kind::of_code(bytes[3]) else {
            return Err(FrameFault::Kind);
        };
        let number = BigEndian::read_u64(&bytes[10..]);
        if !kind.admits(number) {
            return Err(FrameFault::Number);
        }
        let count = BigEndian::read_u64(&bytes[18..]);
        if count > MAX_NUMBER {
            return Err(FrameFault::Count);
        }
        Ok(Header {
            version,
            kind,
            run: BigEndian::read_u32(&bytes[4..]),
            from: bytes[8],
            to: bytes[9],
            number,
            count,
        })
    }
}

// The fourth byte of the header of a frame that carries this.
fn kind_byte(msg: Option<Msg>) -> u8
    ensures { result ≡ kind_of msg }
{
    match msg {
        Some(_) => DATA,
        None => ACK,
    }
}

/// Writes the frame's header to the front of `out`.
pub fn write_header(frame: &Frame, out: &mut [u8])
    requires { HEADER_LENGTH ≤ length out.old }
    ensures written { out.new ≡ header (kind_of frame.now.msg) frame.now ++ drop 26 out.old }
    ensures range { IsFrame frame.now }
{
    out[0] = MAGIC[0];
    out[1] = MAGIC[1];
    out[2] = frame.version().number();
    out[3] = kind_byte(frame.msg());
    BigEndian::write_u32(&mut out[4..], frame.run());
    out[8] = frame.from();
    out[9] = frame.to();
    BigEndian::write_u64(&mut out[10..], frame.number());
    BigEndian::write_u64(&mut out[18..], frame.count());
}
