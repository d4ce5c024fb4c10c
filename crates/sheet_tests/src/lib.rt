//! Examples of sheets and their answers.
#![tactic(auto)]

#[cfg(test)]
mod every;

#[cfg(test)]
mod tests {
    use crate::every::{FIRST_SHEET, FIRST_WORDS, SECOND_SHEET, SECOND_WORDS};
    use sheets::faults::SizeFault;
    use sheets::sheet::sheet;
    use std::alloc::Global;
    use std::process::Abort;
    use std::test::Fail;

    // The bytes are as they were before.
    fn untouched(rt: &impl Abort, name: &str, bytes: &[u8]) {
        for b in bytes {
            assert_eq!(rt; *b, 0xaa, "{name}");
        }
    }

    // The sheet is answered by that text at the start of the output, whose bytes past it stay.
    fn answered_in(
        rt: &impl Abort,
        name: &str,
        output: &mut [u8],
        input: &[u8],
        answer: &[u8],
    ) -> Result<(), Fail> {
        let taken = sheet(input, output);
        assert!(rt; taken.is_ok(), "{name}");
        let n = taken?;
        assert_eq!(rt; &output[..n], answer, "{name}");
        untouched(rt, name, &output[n..]);
        Ok(())
    }

    // The same in the shortest output.
    fn answered(rt: &impl Abort, name: &str, input: &[u8], answer: &[u8]) -> Result<(), Fail> {
        answered_in(rt, name, &mut [0xaau8; 4096], input, answer)
    }

    // Every sheet of a table has the text beside it as its answer.
    fn all(rt: &impl Abort, cases: &[(&str, &str)]) -> Result<(), Fail> {
        for (sheet, answer) in cases {
            answered(rt, sheet, sheet.as_bytes(), answer.as_bytes())?;
        }
        Ok(())
    }

    // Sheets that are taken.
    const TAKEN: [(&str, &str); 11] = [
        ("op,d,a,b,n,m\nadd,3,1,2,,\n", "at,word\n0,002081b3\n"),
        ("op,d,a,b,n,m\n", "at,word\n"),
        ("m,n,b,a,d,op\n,,2,1,3,add\n", "at,word\n0,002081b3\n"),
        ("a,op,n,d,m,b\n1,add,,3,,2\n", "at,word\n0,002081b3\n"),
        ("op,d,a,b,n,m\nadd,,,,,\n", "at,word\n0,00000033\n"),
        ("op,d,a,b,n,m\nadd,0,0,0,0,0\n", "at,word\n0,00000033\n"),
        ("op,d,a,b,n,m\nadd,31,31,31,,\n", "at,word\n0,01ff8fb3\n"),
        (
            "op,d,a,b,n,m\naddi,5,6,,2047,\naddi,5,6,,-2048,\n",
            "at,word\n0,7ff30293\n4,80030293\n",
        ),
        (
            "op,d,a,b,n,m\nlui,5,,,524287,\nlui,5,,,-524288,\n",
            "at,word\n0,7ffff2b7\n4,800002b7\n",
        ),
        (
            "op,d,a,b,n,m\nsd,,2,10,16,\nlw,10,2,,8,\n",
            "at,word\n0,00a13823\n4,00812503\n",
        ),
        (
            "op,d,a,b,n,m\njalr,,1,,,\nsub,10,11,12,,\nadd,3,1,2,,\n",
            "at,word\n0,00008067\n4,40c58533\n8,002081b3\n",
        ),
    ];

    #[test]
    fn taken(rt: HostRuntime) -> Result<(), Fail> {
        all(&rt, &TAKEN)
    }

    // Sheets with a bad names line: none, no newline, a name missing, empty, twice, unknown, a seventh, with a blank.
    const NAMES: [(&str, &str); 14] = [
        ("", "line,fault\n1,16\n"),
        ("\n", "line,fault\n1,16\n"),
        ("op,d,a,b,n,m", "line,fault\n1,16\n"),
        ("op,d,a,b,n\n", "line,fault\n1,16\n"),
        ("op,d,a,b,n,\n", "line,fault\n1,16\n"),
        ("op,d,a,b,n,n\n", "line,fault\n1,16\n"),
        ("op,d,a,b,n,x\n", "line,fault\n1,16\n"),
        ("op,d,a,b,n,m,\n", "line,fault\n1,16\n"),
        ("op,d,a,b,n,m,m\n", "line,fault\n1,16\n"),
        ("op, d,a,b,n,m\n", "line,fault\n1,16\n"),
        ("op,d,a,b,n,m \n", "line,fault\n1,16\n"),
        ("op,d,a,b,n,M\n", "line,fault\n1,16\n"),
        ("op,d,a,b,n,m\r\n", "line,fault\n1,16\n"),
        ("add,3,1,2,,\nfoo\n", "line,fault\n1,16\n"),
    ];

    #[test]
    fn names_line(rt: HostRuntime) -> Result<(), Fail> {
        all(&rt, &NAMES)
    }

    // Lines with another number of fields than six, or without a newline: before any fault of their fields.
    const COUNTS: [(&str, &str); 10] = [
        ("op,d,a,b,n,m\n\n", "line,fault\n2,17\n"),
        ("op,d,a,b,n,m\nadd,3,1,2,,\n\n", "line,fault\n3,17\n"),
        ("op,d,a,b,n,m\nadd,3,1,2,\n", "line,fault\n2,17\n"),
        ("op,d,a,b,n,m\nadd,3,1,2,,,\n", "line,fault\n2,17\n"),
        ("op,d,a,b,n,m\nfoo,3\n", "line,fault\n2,17\n"),
        ("op,d,a,b,n,m\nadd,3,1,2,,", "line,fault\n2,17\n"),
        ("op,d,a,b,n,m\nfoo,3,1,2,,", "line,fault\n2,17\n"),
        (
            "op,d,a,b,n,m\nadd,3,1,2,,\nadd,3,1,2,,",
            "line,fault\n3,17\n",
        ),
        (
            "op,d,a,b,n,m\nfoo,3,1,2,,\nadd,3,1,2,,",
            "line,fault\n2,18\n",
        ),
        (
            "op,d,a,b,n,m\nadd,32,1,2,,\nadd,3,1,2,,",
            "line,fault\n2,1\n",
        ),
    ];

    #[test]
    fn counts_of_fields(rt: HostRuntime) -> Result<(), Fail> {
        all(&rt, &COUNTS)
    }

    // Names that no operation has.
    const UNKNOWN: [(&str, &str); 9] = [
        ("op,d,a,b,n,m\nfoo,3,1,2,,\n", "line,fault\n2,18\n"),
        ("op,d,a,b,n,m\n,3,1,2,,\n", "line,fault\n2,18\n"),
        ("op,d,a,b,n,m\nAdd,3,1,2,,\n", "line,fault\n2,18\n"),
        ("op,d,a,b,n,m\nad,3,1,2,,\n", "line,fault\n2,18\n"),
        ("op,d,a,b,n,m\naddd,3,1,2,,\n", "line,fault\n2,18\n"),
        ("op,d,a,b,n,m\n add,3,1,2,,\n", "line,fault\n2,18\n"),
        ("op,d,a,b,n,m\n7,3,1,2,,\n", "line,fault\n2,18\n"),
        ("op,d,a,b,n,m\njall,1,,,4,\n", "line,fault\n2,18\n"),
        (
            "op,d,a,b,n,m\nadd,3,1,2,,\nadd,3,1,2,,\nfoo,3,1,2,,\n",
            "line,fault\n4,18\n",
        ),
    ];

    #[test]
    fn unknown_operations(rt: HostRuntime) -> Result<(), Fail> {
        all(&rt, &UNKNOWN)
    }

    // Fields that are no number, or none of signed 64 bits.
    const NUMBERS: [(&str, &str); 19] = [
        ("op,d,a,b,n,m\nadd,x3,1,2,,\n", "line,fault\n2,18\n"),
        ("op,d,a,b,n,m\nadd,3,add,2,,\n", "line,fault\n2,18\n"),
        ("op,d,a,b,n,m\nadd,3,1,007,,\n", "line,fault\n2,18\n"),
        ("op,d,a,b,n,m\nadd,3,1,00,,\n", "line,fault\n2,18\n"),
        ("op,d,a,b,n,m\nadd,3,1,2,-0,\n", "line,fault\n2,18\n"),
        ("op,d,a,b,n,m\naddi,3,1,,-07,\n", "line,fault\n2,18\n"),
        ("op,d,a,b,n,m\naddi,3,1,,-,\n", "line,fault\n2,18\n"),
        ("op,d,a,b,n,m\naddi,3,1,,--1,\n", "line,fault\n2,18\n"),
        ("op,d,a,b,n,m\naddi,3,1,,+5,\n", "line,fault\n2,18\n"),
        ("op,d,a,b,n,m\naddi,3,1,,1.5,\n", "line,fault\n2,18\n"),
        ("op,d,a,b,n,m\naddi,3,1,,0x10,\n", "line,fault\n2,18\n"),
        ("op,d,a,b,n,m\nadd, 3,1,2,,\n", "line,fault\n2,18\n"),
        ("op,d,a,b,n,m\nadd,3 ,1,2,,\n", "line,fault\n2,18\n"),
        ("op,d,a,b,n,m\nadd,3,1,2,,\r\n", "line,fault\n2,18\n"),
        ("op,d,a,b,n,m\nadd,3,1,2,,0\r\n", "line,fault\n2,18\n"),
        (
            "op,d,a,b,n,m\nadd,9223372036854775808,1,2,,\n",
            "line,fault\n2,18\n",
        ),
        (
            "op,d,a,b,n,m\nadd,-9223372036854775809,1,2,,\n",
            "line,fault\n2,18\n",
        ),
        (
            "op,d,a,b,n,m\nadd,18446744073709551619,1,2,,\n",
            "line,fault\n2,18\n",
        ),
        ("op,d,a,b,n,m\nadd,32,1,2,5,x\n", "line,fault\n2,18\n"),
    ];

    #[test]
    fn numbers(rt: HostRuntime) -> Result<(), Fail> {
        all(&rt, &NUMBERS)
    }

    // Bytes that no text has: a NUL, and bytes above 127.
    #[test]
    fn odd_bytes(rt: HostRuntime) -> Result<(), Fail> {
        answered(
            &rt,
            "a zero byte for a number",
            b"op,d,a,b,n,m\nadd,\x00,1,2,,\n",
            b"line,fault\n2,18\n",
        )?;
        answered(
            &rt,
            "a zero byte behind a number",
            b"op,d,a,b,n,m\nadd,3\x00,1,2,,\n",
            b"line,fault\n2,18\n",
        )?;
        answered(
            &rt,
            "a zero byte behind an operation",
            b"op,d,a,b,n,m\nadd\x00,3,1,2,,\n",
            b"line,fault\n2,18\n",
        )?;
        answered(
            &rt,
            "a byte that is no text behind a field",
            b"op,d,a,b,n,m\nadd,3,1,2,,\xb2\n",
            b"line,fault\n2,18\n",
        )?;
        answered(
            &rt,
            "a byte that is no text for an operation",
            b"op,d,a,b,n,m\n\xff,3,1,2,,\n",
            b"line,fault\n2,18\n",
        )?;
        answered(
            &rt,
            "a byte order mark",
            b"\xef\xbb\xbfop,d,a,b,n,m\n",
            b"line,fault\n1,16\n",
        )
    }

    // Fields that are numbers and yet refused: first any that is not used, then registers, then the constant.
    const FIELDS: [(&str, &str); 20] = [
        ("op,d,a,b,n,m\nadd,3,1,2,5,\n", "line,fault\n2,3\n"),
        ("op,d,a,b,n,m\nadd,3,1,2,,1\n", "line,fault\n2,3\n"),
        ("op,d,a,b,n,m\nadd,32,1,2,5,\n", "line,fault\n2,3\n"),
        ("op,d,a,b,n,m\naddi,3,1,2,,\n", "line,fault\n2,3\n"),
        ("op,d,a,b,n,m\nsb,1,2,3,,\n", "line,fault\n2,3\n"),
        ("op,d,a,b,n,m\nlui,1,-1,,,\n", "line,fault\n2,3\n"),
        ("op,d,a,b,n,m\nadd,32,1,2,,\n", "line,fault\n2,1\n"),
        ("op,d,a,b,n,m\nadd,3,32,2,,\n", "line,fault\n2,1\n"),
        ("op,d,a,b,n,m\nadd,3,1,32,,\n", "line,fault\n2,1\n"),
        ("op,d,a,b,n,m\nadd,-1,1,2,,\n", "line,fault\n2,1\n"),
        ("op,d,a,b,n,m\nadd,3,-1,2,,\n", "line,fault\n2,1\n"),
        ("op,d,a,b,n,m\nadd,3,1,-1,,\n", "line,fault\n2,1\n"),
        (
            "op,d,a,b,n,m\nadd,-9223372036854775808,1,2,,\n",
            "line,fault\n2,1\n",
        ),
        (
            "op,d,a,b,n,m\nadd,9223372036854775807,1,2,,\n",
            "line,fault\n2,1\n",
        ),
        ("op,d,a,b,n,m\naddi,32,1,,2048,\n", "line,fault\n2,1\n"),
        ("op,d,a,b,n,m\naddi,3,1,,2048,\n", "line,fault\n2,2\n"),
        ("op,d,a,b,n,m\naddi,3,1,,-2049,\n", "line,fault\n2,2\n"),
        ("op,d,a,b,n,m\nlui,3,,,524288,\n", "line,fault\n2,2\n"),
        ("op,d,a,b,n,m\nlui,3,,,-524289,\n", "line,fault\n2,2\n"),
        (
            "op,d,a,b,n,m\nadd,3,1,2,,\nsw,,1,2,2048,\nfoo,,,,,\n",
            "line,fault\n3,2\n",
        ),
    ];

    #[test]
    fn fields(rt: HostRuntime) -> Result<(), Fail> {
        all(&rt, &FIELDS)
    }

    // Vector and compressed operations: words, masks, overlaps, values that are not taken there, short registers.
    const RULES: [(&str, &str); 16] = [
        (
            "op,d,a,b,n,m\nVaddVV,1,3,2,,\nvle32,8,10,,,\nCMv,10,,11,,\nCLwsp,1,,,64,\n",
            "at,word\n0,022180d7\n4,02056407\n8,852e\n10,4086\n",
        ),
        ("op,d,a,b,n,m\nVmseqVV,0,3,2,,1\n", "at,word\n0,60218057\n"),
        ("op,d,a,b,n,m\nVaddVV,1,3,2,,2\n", "line,fault\n2,2\n"),
        ("op,d,a,b,n,m\nVaddVV,0,3,2,,1\n", "line,fault\n2,4\n"),
        ("op,d,a,b,n,m\nVwadduVV,1,1,2,,\n", "line,fault\n2,4\n"),
        ("op,d,a,b,n,m\nVwadduWV,1,2,1,,\n", "line,fault\n2,4\n"),
        ("op,d,a,b,n,m\nvle8,0,1,,,1\n", "line,fault\n2,4\n"),
        ("op,d,a,b,n,m\nVmergeVVM,1,2,3,,\n", "line,fault\n2,3\n"),
        ("op,d,a,b,n,m\nVmandMM,1,2,3,,1\n", "line,fault\n2,3\n"),
        ("op,d,a,b,n,m\nVmvrV,8,,16,2,\n", "line,fault\n2,3\n"),
        ("op,d,a,b,n,m\nCMv,10,,0,,\n", "line,fault\n2,3\n"),
        ("op,d,a,b,n,m\nCLui,2,,,1,\n", "line,fault\n2,3\n"),
        ("op,d,a,b,n,m\nCAddi,1,,,0,\n", "line,fault\n2,3\n"),
        ("op,d,a,b,n,m\nCLw,7,8,,4,\n", "line,fault\n2,1\n"),
        ("op,d,a,b,n,m\nCLw,8,8,,3,\n", "line,fault\n2,2\n"),
        ("op,d,a,b,n,m\nCSlli,1,,,64,\n", "line,fault\n2,2\n"),
    ];

    #[test]
    fn rules(rt: HostRuntime) -> Result<(), Fail> {
        all(&rt, &RULES)
    }

    // Lines, each with its newline.
    fn lines(alloc: Global, lines: &[&str]) -> Result<String, Fail> {
        let mut text = String::new(alloc);
        for line in lines {
            text.push_str(line)?;
            text.push_str("\n")?;
        }
        Ok(text)
    }

    // Every operation, over two sheets: the words are an assembler's.
    #[test]
    fn every_operation(rt: HostRuntime) -> Result<(), Fail> {
        let sheet = lines(rt.alloc(), &FIRST_SHEET)?;
        let words = lines(rt.alloc(), &FIRST_WORDS)?;
        answered(&rt, "the first half", sheet.as_bytes(), words.as_bytes())?;
        let sheet = lines(rt.alloc(), &SECOND_SHEET)?;
        let words = lines(rt.alloc(), &SECOND_WORDS)?;
        answered(&rt, "the second half", sheet.as_bytes(), words.as_bytes())
    }

    // Constants, labels and jumps to them, forward and back; a label needs no jump.
    const LABELS: [(&str, &str); 9] = [
        (
            "op,d,a,b,n,m\nconst,5,,,2048,\nCJ,,,,7,\nadd,3,1,2,,\nbind,,,,7,\n",
            "at,word\n0,000012b7\n4,80028293\n8,a019\n10,002081b3\n",
        ),
        (
            "op,d,a,b,n,m\nconst,5,,,-2049,\n",
            "at,word\n0,fffff2b7\n4,7ff28293\n",
        ),
        (
            "op,d,a,b,n,m\nconst,31,,,2147481599,\n",
            "at,word\n0,7fffffb7\n4,7fff8f93\n",
        ),
        (
            "op,d,a,b,n,m\nbind,,,,3,\naddi,1,1,,-1,\nbne,,1,,3,\n",
            "at,word\n0,fff08093\n4,fe009ee3\n",
        ),
        (
            "op,d,a,b,n,m\njal,1,,,5,\nadd,3,1,2,,\nbind,,,,5,\n",
            "at,word\n0,008000ef\n4,002081b3\n",
        ),
        (
            "op,d,a,b,n,m\nbind,,,,0,\nbind,,,,63,\nCJ,,,,63,\nCJ,,,,0,\n",
            "at,word\n0,a001\n2,bffd\n",
        ),
        ("op,d,a,b,n,m\nbind,,,,9,\n", "at,word\n"),
        ("n,op,m,b,a,d\n7,bind,,,,\n7,CJ,,,,\n", "at,word\n0,a001\n"),
        (
            "op,d,a,b,n,m\nbeq,,1,2,0,\nbind,0,0,0,0,0\n",
            "at,word\n0,00208263\n",
        ),
    ];

    #[test]
    fn labels(rt: HostRuntime) -> Result<(), Fail> {
        all(&rt, &LABELS)
    }

    // Constants, labels and jumps that are refused: first a field that is not used, then register, number, label.
    const REFUSED: [(&str, &str); 22] = [
        ("op,d,a,b,n,m\nconst,0,1,,5,\n", "line,fault\n2,3\n"),
        ("op,d,a,b,n,m\nconst,5,,1,5,\n", "line,fault\n2,3\n"),
        ("op,d,a,b,n,m\nconst,5,,,5,1\n", "line,fault\n2,3\n"),
        ("op,d,a,b,n,m\nconst,0,,,5,\n", "line,fault\n2,1\n"),
        (
            "op,d,a,b,n,m\nconst,32,,,2147481600,\n",
            "line,fault\n2,1\n",
        ),
        ("op,d,a,b,n,m\nconst,5,,,2147481600,\n", "line,fault\n2,2\n"),
        ("op,d,a,b,n,m\nconst,5,,,x,\n", "line,fault\n2,18\n"),
        ("op,d,a,b,n,m\nbind,1,,,64,\n", "line,fault\n2,3\n"),
        ("op,d,a,b,n,m\nbind,,,,64,\n", "line,fault\n2,7\n"),
        ("op,d,a,b,n,m\nbind,,,,-1,\n", "line,fault\n2,7\n"),
        (
            "op,d,a,b,n,m\nbind,,,,7,\nadd,3,1,2,,\nbind,,,,7,\n",
            "line,fault\n4,9\n",
        ),
        ("op,d,a,b,n,m\njal,32,,,64,1\n", "line,fault\n2,3\n"),
        ("op,d,a,b,n,m\njal,32,1,,64,\n", "line,fault\n2,3\n"),
        ("op,d,a,b,n,m\njal,32,,,64,\n", "line,fault\n2,1\n"),
        ("op,d,a,b,n,m\njal,1,,,64,\n", "line,fault\n2,7\n"),
        ("op,d,a,b,n,m\nCJ,,,,-1,\n", "line,fault\n2,7\n"),
        ("op,d,a,b,n,m\njal,1,,,8,\n", "line,fault\n2,10\n"),
        (
            "op,d,a,b,n,m\nbind,,,,1,\nCJ,,,,1,\nadd,3,1,2,,\nCJ,,,,2,\nbind,,,,3,\nCJ,,,,4,\n",
            "line,fault\n5,10\n",
        ),
        (
            "op,d,a,b,n,m\nCJ,,,,1,\nadd,32,1,2,,\n",
            "line,fault\n3,1\n",
        ),
        ("op,d,a,b,n,m\nCJ,,,,1,\nadd,3,1,2,,", "line,fault\n3,17\n"),
        ("op,d,a,b,n,m\nCJ,,,,1,\n\n", "line,fault\n3,17\n"),
        ("op,d,a,b,n,m\nConst,5,,,1,\n", "line,fault\n2,18\n"),
    ];

    #[test]
    fn refusals(rt: HostRuntime) -> Result<(), Fail> {
        all(&rt, &REFUSED)
    }

    // A names line and that many lines alike, and then these.
    fn alike(
        rt: &impl Abort,
        alloc: Global,
        line: &str,
        count: u8,
        last: &str,
        answer: &str,
    ) -> Result<(), Fail> {
        let mut input = String::from_str(alloc, "op,d,a,b,n,m\n")?;
        for _ in 0..count {
            input.push_str(line)?;
        }
        input.push_str(last)?;
        answered(rt, last, input.as_bytes(), answer.as_bytes())
    }

    // One constant, jump or word too many.
    #[test]
    fn too_many(rt: HostRuntime) -> Result<(), Fail> {
        alike(
            &rt,
            rt.alloc(),
            "const,1,,,0,\n",
            32,
            "const,1,,,0,\n",
            "line,fault\n34,6\n",
        )?;
        alike(
            &rt,
            rt.alloc(),
            "CJ,,,,1,\n",
            128,
            "CJ,,,,1,\n",
            "line,fault\n130,8\n",
        )?;
        alike(
            &rt,
            rt.alloc(),
            "add,3,1,2,,\n",
            127,
            "const,1,,,0,\n",
            "line,fault\n129,5\n",
        )?;
        alike(
            &rt,
            rt.alloc(),
            "add,3,1,2,,\n",
            128,
            "bind,,,,1,\nCJ,,,,1,\n",
            "line,fault\n131,5\n",
        )
    }

    // 128 words of 32 bits fill the store, and one more is refused; its own fields come first.
    #[test]
    fn full_store(rt: HostRuntime) -> Result<(), Fail> {
        let mut input = String::from_str(rt.alloc(), "op,d,a,b,n,m\n")?;
        let mut text = String::from_str(rt.alloc(), "at,word\n")?;
        for i in 0u8..128 {
            input.push_str("add,3,1,2,,\n")?;
            text.push_str(format!(in rt.alloc(); "{},002081b3\n", 4 * u32::from(i))?.as_str())?;
        }
        answered(&rt, "a full store", input.as_bytes(), text.as_bytes())?;
        let mut more = input.clone()?;
        more.push_str("add,3,1,2,,\n")?;
        answered(
            &rt,
            "one word more",
            more.as_bytes(),
            b"line,fault\n130,5\n",
        )?;
        input.push_str("add,32,1,2,,\n")?;
        answered(
            &rt,
            "a fault on the line past a full store",
            input.as_bytes(),
            b"line,fault\n130,1\n",
        )
    }

    // An input of 4096 bytes is answered.
    #[test]
    fn long_input(rt: HostRuntime) -> Result<(), Fail> {
        let mut input = String::from_str(rt.alloc(), "op,d,a,b,n,m\n")?;
        input.push_str("a".repeat(rt.alloc(), 4082)?.as_str())?;
        input.push_str("\n")?;
        assert_eq!(rt; input.len(), 4096);
        answered(
            &rt,
            "an input of 4096 bytes",
            input.as_bytes(),
            b"line,fault\n2,17\n",
        )
    }

    // The sizes are refused with this fault, whose number is 19, and the output stays.
    fn refused(rt: &impl Abort, name: &str, input: &[u8], output: &mut [u8], fault: SizeFault) {
        assert_eq!(rt; sheet(input, output), Err(fault), "{name}");
        assert_eq!(rt; fault.number(), 19, "{name}");
        untouched(rt, name, output);
    }

    // A longer input and a shorter output are refused; of both, the input.
    #[test]
    fn sizes(rt: HostRuntime) {
        let names = b"op,d,a,b,n,m\n";
        let long = [b'\n'; 4097];
        let short = &mut [0xaau8; 4095];
        let enough = &mut [0xaau8; 4096];
        refused(&rt, "a short output", names, short, SizeFault::Output(4095));
        refused(&rt, "both", &long, short, SizeFault::Input(4097));
        refused(&rt, "a long input", &long, enough, SizeFault::Input(4097));
    }

    // A longer output: the bytes past the text stay.
    #[test]
    fn long_output(rt: HostRuntime) -> Result<(), Fail> {
        answered_in(
            &rt,
            "a longer output",
            &mut [0xaau8; 5000],
            b"op,d,a,b,n,m\nadd,3,1,2,,\n",
            b"at,word\n0,002081b3\n",
        )
    }
}
