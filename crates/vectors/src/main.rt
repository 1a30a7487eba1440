// Runs the standards' examples: SM3 (GB/T 32905-2016, Annex A) and SM4 (GB/T 32907-2016, Annex A).
#![tactic(auto)]

use sm3::sm3;
use sm4::{encrypt, round_keys};
use std::{array, io};

// One line: what it is, then the bytes in hexadecimal.
fn show(rt: &impl Print, name: &str, bytes: &[u8]) -> io::Result<()> {
    print!(rt; "{name}")?;
    for byte in bytes {
        print!(rt; "{byte:02x}")?;
    }
    println!(rt; "")
}

fn show_digest(rt: &impl Print, name: &str, message: &[u8]) -> io::Result<()> {
    match sm3(message) {
        Ok(digest) => show(rt, name, &digest),
        Err(_) => println!(rt; "{name}refused"),
    }
}

// The 64 bytes "abcd" sixteen times.
fn repeated() -> [u8; 64] {
    array::from_fn(|i| b"abcd"[i % 4])
}

// The block encrypted again and again under the same round keys.
fn encrypted(keys: [u32; 32], start: [u8; 16], times: usize) -> [u8; 16] {
    let mut block = start;
    for _ in 0..times {
        block = encrypt(&keys, &block).unwrap();
    }
    block
}

fn show_encrypted(rt: &impl Print, name: &str, times: usize) -> io::Result<()> {
    let example = [
        0x01, 0x23, 0x45, 0x67, 0x89, 0xab, 0xcd, 0xef, 0xfe, 0xdc, 0xba, 0x98, 0x76, 0x54, 0x32,
        0x10u8,
    ];
    let keys = round_keys(&example).unwrap();
    let block = encrypted(keys, example, times);
    show(rt, name, &block)
}

fn main(rt: HostRuntime) -> io::Result<()> {
    show_digest(&rt, "SM3 of abc: ", b"abc")?;
    let message = repeated();
    show_digest(&rt, "SM3 of abcd, sixteen times: ", &message)?;
    show_encrypted(&rt, "SM4, one encryption: ", 1)?;
    show_encrypted(&rt, "SM4, 1,000,000 encryptions: ", 1000000)
}
