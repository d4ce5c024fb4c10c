//! Examples of programs.
#![tactic(auto)]

#[cfg(test)]
mod tests {
    use calls::bind::bind;
    use calls::constant::constant;
    use calls::emit::emit;
    use calls::jump::{JumpTo, jump};
    use instructions::build::build;
    use instructions::fields::{BuildFault, Fields};
    use operations::names::by_name;
    use program::faults::EmitFault;
    use programs::open::Open;
    use reading::read::read;
    use records::book::Book;
    use records::counts::Counts;
    use sealing::faults::{BadJump, JumpCause, SealFault};
    use sealing::seal::seal;
    use std::test::Fail;
    use store::built_in::BuiltIn;
    use store::store::Store;

    // The jump that is read from the halfword a019 is not written again: a jump needs a label.
    #[test]
    fn jump_that_was_read(rt: HostRuntime) -> Result<(), Fail> {
        let mut store = BuiltIn::new();
        store.put(8, 0xa019)?;
        let jump = read(&store, 8)?;
        assert_eq!(rt; jump.fields().n, 6);
        let mut program = Open::new();
        let refused = program.emit(&mut store, &jump);
        assert_eq!(rt; refused, Err(EmitFault::Build(BuildFault::Jump)));
        assert_eq!(rt; refused.err().map(|e| e.number()), Some(3));
        assert_eq!(rt; program.used(), 0);
        assert_eq!(rt; store.get(0), Some(0));
        Ok(())
    }

    // The addition that is read is written at the program's start.
    #[test]
    fn addition_that_was_read(rt: HostRuntime) -> Result<(), Fail> {
        let mut store = BuiltIn::new();
        store.put(8, 0x81b3)?;
        store.put(9, 0x0020)?;
        let add = read(&store, 8)?;
        let mut program = Open::new();
        assert_eq!(rt; program.emit(&mut store, &add), Ok(()));
        assert_eq!(rt; program.used(), 2);
        assert_eq!(rt; store.get(0), Some(0x81b3));
        assert_eq!(rt; store.get(1), Some(0x0020));
        Ok(())
    }

    // A constant, a jump over an addition to the label 7, and the addition: refused while the label is not bound, and then sealed.
    #[test]
    fn jump_that_is_sealed(rt: HostRuntime) -> Result<(), Fail> {
        let mut store = BuiltIn::new();
        let mut book = Book::new();
        let mut counts = Counts::default();
        constant(&mut counts, &mut store, &mut book, 5, 2048)?;
        let to = JumpTo {
            op: by_name(b"CJ").ok_or("CJ")?,
            d: 0,
            a: 0,
            b: 0,
            label: 7,
        };
        jump(&mut counts, &mut store, &mut book, &to)?;
        let fields = Fields {
            d: 3,
            a: 1,
            b: 2,
            n: 0,
            m: 0,
        };
        emit(
            &mut counts,
            &mut store,
            &build(by_name(b"add").ok_or("add")?, fields)?,
        )?;
        let unbound = BadJump {
            jump: 0,
            place: 4,
            cause: JumpCause::Unbound,
        };
        let refused = seal(counts, &mut store, &mut book);
        assert_eq!(rt; refused, Err(SealFault::Jump(unbound)));
        assert_eq!(rt; refused.err().map(|e| e.number()), Some(10));
        assert_eq!(rt; store.get(4), Some(0xa001));
        bind(&mut counts, &mut book, 7)?;
        assert_eq!(rt; seal(counts, &mut store, &mut book), Ok(()));
        assert_eq!(rt; store.get(4), Some(0xa019));
        assert_eq!(rt; store.get(5), Some(0x81b3));
        assert_eq!(rt; book.jumps[0].distance, 6);
        Ok(())
    }
}
