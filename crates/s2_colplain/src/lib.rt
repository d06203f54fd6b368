//! Columns of plain numbers, packed numbers and plain texts: written, and read in place.
#![tactic(auto)]

mod ints;
mod packing;
mod packs;
mod texts;

pub use ints::{PlainInt, write_plain_int};
pub use packing::Packed;
pub use packs::write_packed;
pub use texts::{HasText, PlainText, write_plain_text};

#[cfg(test)]
mod tests {
    use super::*;
    use s2_colbytes::ColErr;
    use s2_value::Txt;
    use std::test::Fail;

    // What a number takes as bytes, its least byte first, and then one byte more.
    const NINE: [u8; 9] = [5, 0, 0, 0, 0, 0, 0, 0, 9];

    #[test]
    fn reads_plain_numbers(rt: HostRuntime) -> Result<(), Fail> {
        let mut out = Vec::new(rt.alloc());
        write_plain_int(&[5, -1], &mut out)?;
        let read = PlainInt::read(2, &out).ok().ok_or("refused")?;
        assert_eq!(rt; read.len(), 2);
        assert_eq!(rt; (read.at(0), read.at(1)), (5, -1));
        assert_eq!(rt; PlainInt::read(1, &NINE[..7]).err(), Some(ColErr::Short));
        assert_eq!(rt; PlainInt::read(1, &NINE).err(), Some(ColErr::Trailing));
        Ok(())
    }

    #[test]
    fn packs_numbers(rt: HostRuntime) -> Result<(), Fail> {
        let mut out = Vec::new(rt.alloc());
        write_packed(&[7, 7, 8], &mut out)?;
        assert_eq!(rt; out.as_slice(), [7, 0, 0, 0, 0, 0, 0, 0, 1, 4].as_slice());
        let read = Packed::read(3, &out).ok().ok_or("refused")?;
        assert_eq!(rt; read.len(), 3);
        assert_eq!(rt; (read.at(0), read.at(1), read.at(2)), (7, 7, 8));
        Ok(())
    }

    #[test]
    fn refuses_packed_numbers(rt: HostRuntime) {
        let top = [255, 255, 255, 255, 255, 255, 255, 127, 1, 1, 0];
        let cases = [
            (&NINE[..8], 1, ColErr::Short),
            (&[0, 0, 0, 0, 0, 0, 0, 0, 64], 1, ColErr::BadWidth),
            (&[0, 0, 0, 0, 0, 0, 0, 0, 63], 1, ColErr::Short),
            (&top[..10], 1, ColErr::Overflow),
            (&top[..], 1, ColErr::Overflow),
            (&NINE[..], 1, ColErr::Short),
        ];
        for (bytes, n, want) in cases {
            assert_eq!(rt; Packed::read(n, bytes).err(), Some(want), "of {bytes:?}");
        }
    }

    #[test]
    fn reads_texts(rt: HostRuntime) -> Result<(), Fail> {
        let first = Txt::new(rt.alloc(), b"ab").ok().ok_or("no text")?;
        let second = Txt::new(rt.alloc(), b"").ok().ok_or("no text")?;
        let mut out = Vec::new(rt.alloc());
        write_plain_text(&[first, second], &mut out)?;
        assert_eq!(rt; out.as_slice(), [2, 0, 0, 0, 2, 0, 0, 0, 97, 98].as_slice());
        let read = PlainText::read(2, &out).ok().ok_or("refused")?;
        assert_eq!(rt; read.len(), 2);
        assert_eq!(rt; read.at(0), b"ab".as_slice());
        assert_eq!(rt; read.at(1).len(), 0);
        Ok(())
    }

    #[test]
    fn refuses_texts(rt: HostRuntime) {
        let cases = [
            (&[1, 0, 0][..], 1, ColErr::Short),
            (&[1, 0, 0, 0][..], 1, ColErr::Short),
            (&[1, 0, 0, 0, 255][..], 1, ColErr::NotText),
            (&[1, 0, 0, 0, 10][..], 1, ColErr::NotText),
            (&[1, 0, 0, 0, 97, 98][..], 1, ColErr::Trailing),
            (&[2, 0, 0, 0, 1, 0, 0, 0, 97, 98][..], 2, ColErr::BadLength),
            (&[0, 1, 0, 0][..], 1, ColErr::BadLength),
        ];
        for (bytes, n, want) in cases {
            assert_eq!(rt; PlainText::read(n, bytes).err(), Some(want), "of {bytes:?}");
        }
    }
}
