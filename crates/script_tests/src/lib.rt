//! Scripts at the limits of a program, and their answers.
#![tactic(auto)]

#[cfg(test)]
mod tests {
    use scripts::whole::answer;
    use std::io;
    use std::io::Write;
    use std::process::Abort;
    use std::test::Fail;
    use text::writing::Text;

    fn write_lines(text: &mut Text<131072>, lines: &[(&str, usize)]) -> io::Result<()> {
        for (line, times) in lines {
            for _time in 0..*times {
                writeln!(text, "{line}")?;
            }
        }
        Ok(())
    }

    // The script is answered by these lines, and then by that of the used halfwords.
    fn answered(
        rt: &impl Abort,
        script: &[(&str, usize)],
        answers: &[(&str, usize)],
    ) -> Result<(), Fail> {
        let mut asked: Text<131072> = Text::new();
        write_lines(&mut asked, script)?;
        let mut wanted: Text<131072> = Text::new();
        write_lines(&mut wanted, answers)?;
        write!(wanted, "words")?;
        let mut told: Text<262144> = Text::new();
        let taken = answer(asked.as_bytes(), &mut told);
        assert!(rt; taken.is_ok());
        assert!(rt; told.as_bytes().starts_with(wanted.as_bytes()));
        Ok(())
    }

    #[test]
    fn labels(rt: HostRuntime) -> Result<(), Fail> {
        answered(
            &rt,
            &[
                ("store 8", 1),
                ("bind 63", 1),
                ("bind 64", 1),
                ("bind 63", 1),
                ("bind -1", 1),
                ("bind 0", 1),
            ],
            &[
                ("ok", 1),
                ("refused 7", 1),
                ("refused 9", 1),
                ("refused 7", 1),
                ("ok", 1),
            ],
        )
    }

    #[test]
    fn slots(rt: HostRuntime) -> Result<(), Fail> {
        answered(
            &rt,
            &[
                ("store 200", 1),
                ("constant 1 0", 33),
                ("seal", 1),
                ("value 31", 1),
                ("value 32", 1),
            ],
            &[
                ("ok", 32),
                ("refused 6", 1),
                ("ok", 1),
                ("ok 0", 1),
                ("refused 12", 1),
            ],
        )
    }

    #[test]
    fn jumps(rt: HostRuntime) -> Result<(), Fail> {
        answered(
            &rt,
            &[
                ("store 200", 1),
                ("jump CJ 0 0 0 0", 129),
                ("bind 0", 1),
                ("seal", 1),
            ],
            &[("ok", 128), ("refused 8", 1), ("ok", 2)],
        )
    }

    // A full store takes no instruction more, and a label at its end.
    #[test]
    fn full_store(rt: HostRuntime) -> Result<(), Fail> {
        answered(
            &rt,
            &[
                ("store 2", 1),
                ("emit add 3 1 2 0 0", 1),
                ("emit CEbreak 0 0 0 0 0", 1),
                ("constant 1 1", 1),
                ("jump CJ 0 0 0 0", 1),
                ("bind 0", 1),
            ],
            &[("ok", 1), ("refused 5", 3), ("ok", 1)],
        )?;
        answered(
            &rt,
            &[
                ("store 1", 1),
                ("emit add 3 1 2 0 0", 1),
                ("emit CMv 10 0 11 0 0", 1),
                ("emit CMv 10 0 11 0 0", 1),
            ],
            &[("refused 5", 1), ("ok", 1), ("refused 5", 1)],
        )
    }

    // CJ reaches 1023 halfwords forward and 1024 back.
    #[test]
    fn reach_of_cj(rt: HostRuntime) -> Result<(), Fail> {
        answered(
            &rt,
            &[
                ("store 2000", 1),
                ("jump CJ 0 0 0 0", 1),
                ("emit CEbreak 0 0 0 0 0", 1022),
                ("bind 0", 1),
                ("seal", 1),
            ],
            &[("ok", 1025)],
        )?;
        answered(
            &rt,
            &[
                ("store 2000", 1),
                ("jump CJ 0 0 0 0", 1),
                ("emit CEbreak 0 0 0 0 0", 1023),
                ("bind 0", 1),
                ("seal", 1),
            ],
            &[("ok", 1025), ("refused 11 jump 0 place 0", 1)],
        )?;
        answered(
            &rt,
            &[
                ("store 2000", 1),
                ("bind 0", 1),
                ("emit CEbreak 0 0 0 0 0", 1024),
                ("jump CJ 0 0 0 0", 1),
                ("seal", 1),
            ],
            &[("ok", 1027)],
        )?;
        answered(
            &rt,
            &[
                ("store 2000", 1),
                ("bind 0", 1),
                ("emit CEbreak 0 0 0 0 0", 1025),
                ("jump CJ 0 0 0 0", 1),
                ("seal", 1),
            ],
            &[("ok", 1027), ("refused 11 jump 0 place 1025", 1)],
        )
    }

    // A branch reaches 2047 halfwords forward and 2048 back.
    #[test]
    fn reach_of_branches(rt: HostRuntime) -> Result<(), Fail> {
        answered(
            &rt,
            &[
                ("store 3000", 1),
                ("jump beq 0 1 2 0", 1),
                ("emit CEbreak 0 0 0 0 0", 2045),
                ("bind 0", 1),
                ("seal", 1),
            ],
            &[("ok", 2048)],
        )?;
        answered(
            &rt,
            &[
                ("store 3000", 1),
                ("jump bgeu 0 1 2 0", 1),
                ("emit CEbreak 0 0 0 0 0", 2046),
                ("bind 0", 1),
                ("seal", 1),
            ],
            &[("ok", 2048), ("refused 11 jump 0 place 0", 1)],
        )?;
        answered(
            &rt,
            &[
                ("store 3000", 1),
                ("bind 0", 1),
                ("emit CEbreak 0 0 0 0 0", 2048),
                ("jump bne 0 1 2 0", 1),
                ("seal", 1),
            ],
            &[("ok", 2051)],
        )?;
        answered(
            &rt,
            &[
                ("store 3000", 1),
                ("bind 0", 1),
                ("emit CEbreak 0 0 0 0 0", 2049),
                ("jump blt 0 1 2 0", 1),
                ("seal", 1),
            ],
            &[("ok", 2051), ("refused 11 jump 0 place 2049", 1)],
        )
    }

    // jal reaches any place of the longest program that a script can make.
    #[test]
    fn reach_of_jal(rt: HostRuntime) -> Result<(), Fail> {
        answered(
            &rt,
            &[
                ("store 32768", 1),
                ("jump jal 1 0 0 0", 1),
                ("emit add 3 1 2 0 0", 4000),
                ("bind 0", 1),
                ("jump jal 1 0 0 1", 1),
                ("seal", 1),
                ("bind 1", 1),
                ("seal", 1),
            ],
            &[("ok", 4003), ("refused 10 jump 1 place 8002", 1), ("ok", 2)],
        )
    }

    // What a try did counts for nothing once it is given up: its labels may be bound again.
    #[test]
    fn try_given_up(rt: HostRuntime) -> Result<(), Fail> {
        answered(
            &rt,
            &[
                ("store 16", 1),
                ("try", 1),
                ("bind 5", 1),
                ("constant 4 7", 1),
                ("jump CJ 0 0 0 5", 1),
                ("try", 1),
                ("seal", 1),
                ("giveup", 1),
                ("bind 5", 1),
                ("try", 1),
                ("constant 4 9", 1),
                ("keep", 1),
                ("keep", 1),
                ("seal", 1),
                ("value 0", 1),
                ("emit CEbreak 0 0 0 0 0", 1),
            ],
            &[
                ("ok", 4),
                ("state", 2),
                ("ok", 5),
                ("state", 1),
                ("ok", 1),
                ("ok 9", 1),
                ("state", 1),
            ],
        )
    }

    // A change is made whole or not at all.
    #[test]
    fn changes(rt: HostRuntime) -> Result<(), Fail> {
        answered(
            &rt,
            &[
                ("store 16", 1),
                ("constant 4 7", 1),
                ("constant 5 8", 1),
                ("change 0 1", 1),
                ("seal", 1),
                ("change", 1),
                ("change 0 1 2 1", 1),
                ("change 0 1 1 2 0 3", 1),
                ("change 1 5 0 2147481600", 1),
                ("value 0", 1),
                ("value 1", 1),
                ("change 1 2147481599 0 -2147485696", 1),
                ("value 0", 1),
                ("value 1", 1),
                ("change 0", 1),
                ("seal", 1),
            ],
            &[
                ("ok", 2),
                ("state", 1),
                ("ok", 2),
                ("refused 12 entry 1", 1),
                ("refused 13 entry 2", 1),
                ("refused 2 entry 1", 1),
                ("ok 7", 1),
                ("ok 8", 1),
                ("ok", 1),
                ("ok -2147485696", 1),
                ("ok 2147481599", 1),
                ("unknown", 1),
                ("state", 1),
            ],
        )
    }

    // Each refusal of a jump, and of an emit, by its number.
    #[test]
    fn refusals(rt: HostRuntime) -> Result<(), Fail> {
        answered(
            &rt,
            &[
                ("store 16", 1),
                ("jump add 0 0 0 0", 1),
                ("jump CJ 1 0 0 0", 1),
                ("jump beq 0 32 0 64", 1),
                ("jump beq 0 31 0 64", 1),
                ("emit jal 1 0 0 4 0", 1),
                ("emit add 32 0 0 0 0", 1),
                ("emit addi 1 1 0 2048 0", 1),
                ("emit VaddVV 0 3 2 0 1", 1),
                ("constant 0 1", 1),
                ("constant 32 1", 1),
                ("constant 1 2147481600", 1),
            ],
            &[
                ("refused 3", 2),
                ("refused 1", 1),
                ("refused 7", 1),
                ("refused 3", 1),
                ("refused 1", 1),
                ("refused 2", 1),
                ("refused 4", 1),
                ("refused 1", 2),
                ("refused 2", 1),
            ],
        )
    }

    // Lines that are no call alter nothing.
    #[test]
    fn unknown_lines(rt: HostRuntime) -> Result<(), Fail> {
        answered(
            &rt,
            &[
                ("store 4", 1),
                ("", 1),
                ("emit add 3 1 2 0", 1),
                ("emit add  3 1 2 0 0", 1),
                ("Emit add 3 1 2 0 0", 1),
                ("emit add 03 1 2 0 0", 1),
                ("bind", 1),
                ("bind -0", 1),
                ("try ", 1),
                ("value 9223372036854775808", 1),
            ],
            &[("unknown", 9)],
        )
    }

    // More than 4000 calls.
    #[test]
    fn long_script(rt: HostRuntime) -> Result<(), Fail> {
        answered(
            &rt,
            &[("store 0", 1), ("bind 64", 4096)],
            &[("refused 7", 4096)],
        )
    }
}
