// The layouts of both shelves, cell by cell and byte by byte, and what laying out denies.
use refusal::Denial;
use shelf::{PackedShelf, Shelf, WordShelf};

fn moved<S: Shelf>(s: &mut S, out: &mut [u16]) -> Result<(), Denial> {
    s.put(2, 1, &[0xabc, 0x123])?;
    s.put(1, 1, &[0xfff, 0x001])?;
    s.take(2, 1, out)
}

#[test]
fn word_layout(rt: HostRuntime) {
    let mut cells = [7u16; 4];
    let mut out = [0u16; 2];
    {
        let mut s = WordShelf::over(&mut cells);
        assert!(rt; s.boxes() == 0);
        assert_eq!(rt; s.lay(2, 1, 2, 12), Ok(()));
        assert_eq!(rt; moved(&mut s, &mut out), Ok(()));
        assert_eq!(rt; s.put(1, 1, &[4096, 0]), Err(Denial::Symbol));
    }
    assert!(rt; out == [0xabc, 0x123]);
    assert!(rt; cells == [0xfff, 1, 0xabc, 0x123]);
}

// The worked example of docs/SHELVES.md, with one byte behind it.
#[test]
fn packed_layout(rt: HostRuntime) {
    let mut bytes = [0x5au8; 7];
    let mut out = [0u16; 2];
    {
        let mut s = PackedShelf::over(&mut bytes);
        assert_eq!(rt; s.lay(2, 1, 2, 12), Ok(()));
        assert_eq!(rt; moved(&mut s, &mut out), Ok(()));
    }
    assert!(rt; out == [0xabc, 0x123]);
    assert!(rt; bytes == [0xff, 0xf0, 0x01, 0xab, 0xc1, 0x23, 0x5a]);
}

// Three symbols of 12 bits need five bytes, four need six.
#[test]
fn laying_out(rt: HostRuntime) {
    let mut bytes = [0u8; 5];
    let mut s = PackedShelf::over(&mut bytes);
    assert_eq!(rt; s.kill(1), Err(Denial::Range { at: 1 }));
    assert_eq!(rt; s.lay(17, 1, 1, 12), Err(Denial::Limit));
    assert_eq!(rt; s.lay(2, 1, 2, 12), Err(Denial::Length));
    assert!(rt; s.boxes() == 0);
    assert_eq!(rt; s.lay(1, 1, 3, 12), Ok(()));
    assert!(rt; s.boxes() == 1);
}

// A user's struct over a shelf of any kind.
#[derive(Drop)]
struct Holder<S> {
    shelf: S,
    calls: u32,
}

impl<S: Shelf> Holder<S> {
    fn lose(&mut self, b: u16) -> Result<(), Denial> {
        self.calls = self.calls.wrapping_add(1);
        self.shelf.kill(b)
    }
}

// Shelves can be held in structs of users: what a shelf stores has no ghost field.
#[test]
fn held_in_a_struct(rt: HostRuntime) {
    let mut cells = [0u16; 4];
    let mut out = [0u16; 2];
    let mut shelf = WordShelf::over(&mut cells);
    assert_eq!(rt; shelf.lay(2, 1, 2, 8), Ok(()));
    let mut holder = Holder { shelf, calls: 0 };
    assert_eq!(rt; holder.lose(1), Ok(()));
    assert_eq!(rt;
        holder.shelf.take(1, 1, &mut out),
        Err(Denial::Dead { at: 1 })
    );
    assert!(rt; holder.calls == 1);
}
