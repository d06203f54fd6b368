//! Dictionary codes and run lengths of columns, read in place, and the numbering of values.
#![tactic(auto)]

mod dictionary;
mod numbers;
mod places;

pub use dictionary::{CodeList, Numbered, number_values};
pub use numbers::Codes;
pub use places::RunLens;

#[cfg(test)]
mod tests {
    use super::*;
    use s2_colbytes::ColErr;
    use s2_value::{Txt, Value};
    use std::test::Fail;

    #[test]
    fn numbers_values(rt: HostRuntime) -> Result<(), Fail> {
        let text = Txt::new(rt.alloc(), b"a").ok().ok_or("no text")?;
        let vals = [
            Value::Int(7),
            Value::Text(text),
            Value::Int(7),
            Value::Int(-1),
        ];
        let numbered = number_values(rt.alloc(), &vals)?;
        assert_eq!(rt; numbered.dict.len(), 3);
        assert_eq!(rt; numbered.codes.as_slice(), [0, 1, 0, 2].as_slice());
        Ok(())
    }

    #[test]
    fn reads_codes(rt: HostRuntime) -> Result<(), Fail> {
        let bytes = [1, 0, 0, 0];
        let codes = Codes::read(2, 2, &bytes).ok().ok_or("refused")?;
        assert_eq!(rt; codes.len(), 2);
        assert_eq!(rt; (codes.at(0), codes.at(1)), (1, 0));
        assert_eq!(rt; Codes::read(2, 1, &bytes).err(), Some(ColErr::BadCode));
        assert_eq!(rt; Codes::read(3, 1, &bytes).err(), Some(ColErr::Short));
        assert_eq!(rt; Codes::read(1, 2, &bytes).err(), Some(ColErr::Trailing));
        Ok(())
    }

    #[test]
    fn reads_run_lengths(rt: HostRuntime) -> Result<(), Fail> {
        let bytes = [3, 0, 1, 0, 0, 0];
        let lens = RunLens::read(4, 2, &bytes[..4]).ok().ok_or("refused")?;
        assert_eq!(rt; lens.count(), 2);
        assert_eq!(rt; (lens.at(0), lens.at(1)), (3, 1));
        assert_eq!(rt;
            RunLens::read(5, 2, &bytes[..4]).err(),
            Some(ColErr::BadRuns)
        );
        assert_eq!(rt; RunLens::read(4, 3, &bytes).err(), Some(ColErr::EmptyRun));
        assert_eq!(rt; RunLens::read(4, 4, &bytes).err(), Some(ColErr::Short));
        assert_eq!(rt; RunLens::read(4, 2, &bytes).err(), Some(ColErr::Trailing));
        Ok(())
    }
}
