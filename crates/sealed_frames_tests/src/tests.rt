use datagram_seals::frames::{MAX_SEALED_BYTES, SEAL_BYTES, Secret, hmac};
use std::alloc::Global;
use std::process::Abort;
use std::test::Fail;

// The cases of RFC 4231, with the digests that it gives for SHA-256.
#[test]
fn digests_are_the_published_ones(rt: HostRuntime) -> Result<(), Fail> {
    let alloc = rt.alloc();
    digests_to(
        &rt,
        alloc,
        &[0x0b; 20],
        b"Hi There",
        "b0344c61d8db38535ca8afceaf0bf12b881dc200c9833da726e9376c2e32cff7",
    )?;
    digests_to(
        &rt,
        alloc,
        b"Jefe",
        b"what do ya want for nothing?",
        "5bdcc146bf60754e6a042426089575c75a003f089d2739839dec58b964ec3843",
    )?;
    digests_to(
        &rt,
        alloc,
        &[0xaa; 20],
        &[0xdd; 50],
        "773ea91e36800e46854db8ebd09181a72959098b3ef8c122d9635514ced565fe",
    )?;
    let counted = hex::decode(alloc, b"0102030405060708090a0b0c0d0e0f10111213141516171819")?;
    digests_to(
        &rt,
        alloc,
        counted.as_slice(),
        &[0xcd; 50],
        "82558a389a443c0ea4cc819899f2083a85f0faa3e578f8077a2e3ff46729665b",
    )?;
    digests_to(
        &rt,
        alloc,
        &[0xaa; 131],
        b"Test Using Larger Than Block-Size Key - Hash Key First",
        "60e431591ee0b67f0d8a26aacbf5b77f8e0bc6213728c5140546040f0ee37f54",
    )?;
    digests_to(
        &rt,
        alloc,
        &[0xaa; 131],
        b"This is a test using a larger than block-size key and a larger than block-size data. The key needs to be hashed before being used by the HMAC algorithm.",
        "9b09ffa71b942fcb27635fbcd5b0e944bfdc63644f0713938a7f51535c3a35e2",
    )
}

fn digests_to(
    rt: &impl Abort,
    alloc: Global,
    key: &[u8],
    message: &[u8],
    wanted: &str,
) -> Result<(), Fail> {
    let told = hex::encode(alloc, hmac(key, message))?;
    assert_eq!(rt; told.as_str(), wanted);
    Ok(())
}

// The case of RFC 4231 whose digest is cut to 128 bits: a seal is its first 16 bytes.
#[test]
fn a_seal_is_the_published_digest_cut(rt: HostRuntime) -> Result<(), Fail> {
    let secret = Secret::of_key(&[0x0c; 20]);
    let mut datagram = [7; MAX_SEALED_BYTES];
    let frame = b"Test With Truncation";
    let length = secret.seal(frame, &mut datagram);
    assert_eq!(rt; length, frame.len() + SEAL_BYTES);
    assert_eq!(rt; &datagram[..frame.len()], frame.as_slice());
    let told = hex::encode(rt.alloc(), &datagram[frame.len()..length])?;
    assert_eq!(rt; told.as_str(), "a3b6167473100ee06e0c796c2955552b");
    assert_eq!(rt; datagram[length], 7);
    Ok(())
}

// A sealed frame is opened again, under that secret alone, and no bit of it may be another.
// The seal alone is the sealed form of a frame of no bytes.
