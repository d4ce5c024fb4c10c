//! Examples of the stores.
#![tactic(auto)]

#[cfg(test)]
mod tests {
    use std::test::Fail;
    use store::built_in::BuiltIn;
    use store::bytes::{Bytes, put_bytes};
    use store::store::{Store, StoreFault, write};
    use store::window::Window;

    #[test]
    fn built_in(rt: HostRuntime) -> Result<(), Fail> {
        let mut store = BuiltIn::new();
        assert_eq!(rt; store.size(), 256);
        assert_eq!(rt; store.get(0), Some(0));
        assert_eq!(rt; store.get(256), None);
        store.put(255, 0xabcd)?;
        assert_eq!(rt; store.get(255), Some(0xabcd));
        assert_eq!(rt; store.get(254), Some(0));
        assert_eq!(rt; store.put(256, 1), Err(StoreFault::Outside(256)));
        assert_eq!(rt; StoreFault::Outside(256).number(), 14);
        Ok(())
    }

    #[test]
    fn lists(rt: HostRuntime) -> Result<(), Fail> {
        let mut store = BuiltIn::new();
        write(&mut store, 254, &[7, 8])?;
        assert_eq!(rt; store.get(253), Some(0));
        assert_eq!(rt; store.get(254), Some(7));
        assert_eq!(rt; store.get(255), Some(8));
        assert_eq!(rt;
            write(&mut store, 254, &[1, 2, 3]),
            Err(StoreFault::Outside(256))
        );
        assert_eq!(rt;
            write(&mut store, usize::MAX, &[1, 2]),
            Err(StoreFault::Outside(usize::MAX))
        );
        assert_eq!(rt; store.get(254), Some(7));
        assert_eq!(rt; write(&mut store, usize::MAX, &[]), Ok(()));
        Ok(())
    }

    // 12 bytes from 3 on are four halfwords and one byte.
    #[test]
    fn windows_over_bytes(rt: HostRuntime) -> Result<(), Fail> {
        let mut memory = [
            0xe0u8, 0xe1, 0xe2, 0xe3, 0xe4, 0xe5, 0xe6, 0xe7, 0xe8, 0xe9, 0xea, 0xeb,
        ];
        let mut bytes = Bytes::new(&mut memory, 3);
        assert_eq!(rt; bytes.size(), 4);
        assert_eq!(rt; bytes.get(0), Some(0xe4e3));
        let mut outer = Window::new(&mut bytes, 1, 10);
        assert_eq!(rt; outer.size(), 3);
        let mut inner = Window::new(&mut outer, 1, 1);
        assert_eq!(rt; inner.size(), 1);
        assert_eq!(rt; inner.get(0), Some(0xe8e7));
        inner.put(0, 0x1234)?;
        assert_eq!(rt; inner.put(1, 1), Err(StoreFault::Outside(1)));
        outer.put(2, 0x5678)?;
        assert_eq!(rt; outer.put(3, 1), Err(StoreFault::Outside(3)));
        assert_eq!(rt; bytes.get(2), Some(0x1234));
        assert_eq!(rt; bytes.put(4, 1), Err(StoreFault::Outside(4)));
        assert_eq!(rt;
            memory,
            [
                0xe0, 0xe1, 0xe2, 0xe3, 0xe4, 0xe5, 0xe6, 0x34, 0x12, 0x78, 0x56, 0xeb,
            ]
        );
        Ok(())
    }

    #[test]
    fn nothing_fits(rt: HostRuntime) {
        let mut memory = [1u8, 2, 3];
        assert_eq!(rt;
            put_bytes(&mut memory, 2, 0, 9),
            Err(StoreFault::Outside(0))
        );
        assert_eq!(rt;
            put_bytes(&mut memory, 4, 0, 9),
            Err(StoreFault::Outside(0))
        );
        assert_eq!(rt;
            put_bytes(&mut memory, usize::MAX, usize::MAX, 9),
            Err(StoreFault::Outside(usize::MAX))
        );
        assert_eq!(rt; put_bytes(&mut memory, 1, 0, 0x0504), Ok(()));
        assert_eq!(rt; memory, [1, 4, 5]);
    }

    #[test]
    fn large_windows(rt: HostRuntime) -> Result<(), Fail> {
        let mut store = BuiltIn::new();
        let mut past = Window::new(&mut store, usize::MAX, usize::MAX);
        assert_eq!(rt; past.size(), 0);
        assert_eq!(rt; past.get(0), None);
        assert_eq!(rt;
            past.put(usize::MAX, 9),
            Err(StoreFault::Outside(usize::MAX))
        );
        let mut whole = Window::new(&mut store, 0, usize::MAX);
        assert_eq!(rt; whole.size(), 256);
        whole.put(255, 9)?;
        assert_eq!(rt; store.get(255), Some(9));
        Ok(())
    }
}
