//! Rows in the order of their keys: the one container of tables, of unique contents and of indexes. Contracts see it as the list
//! of its rows.
#![tactic(auto)]

mod blocks;
mod counted;
mod counts;
mod group;
mod key;
pub mod laws;
mod numbered;
mod rows;
mod table;
mod under;

pub use counted::{CountedTable, Owned};
pub use group::Group;
pub use key::{Key, Keyed};
pub use numbered::Numbered;
pub use rows::Rows;
pub use table::Table;
pub use under::Under;

#[cfg(test)]
mod tests {
    use super::*;
    use std::alloc::{AllocError, Global};
    use std::test::Fail;

    #[derive(Drop, Debug)]
    struct Word {
        number: u64,
        letter: [u8; 1],
        count: u8,
    }

    impl Keyed for Word {
        ghost use Rattle.std.specs.Prelude.{[]};

        ghost key_of = { λ word. record { number = word.number; text = word.letter; second = []; third = []; place = 0; item = 0 } };

        fn key(&self) -> Key<'_> {
            Key {
                text: &self.letter,
                ..Key::of_number(self.number)
            }
        }
    }

    fn new_word(number: u64, letter: u8) -> Word {
        Word {
            number,
            letter: [letter],
            count: 0,
        }
    }

    fn insert_new(table: &mut Table<Word>, word: Word) -> Result<(), AllocError> {
        if table.get(word.key()).is_none() {
            table.insert(word)?;
        }
        Ok(())
    }

    fn key<'a>(number: u64, letter: &'a [u8]) -> Key<'a> {
        Key {
            text: letter,
            ..Key::of_number(number)
        }
    }

    // 400 rows come in far from their neighbours, so that blocks are halved again and again.
    fn filled(alloc: Global) -> Result<Table<Word>, AllocError> {
        let mut table = Table::new(alloc);
        for i in 0..200 {
            let number = i * 77 % 200;
            insert_new(&mut table, new_word(number, b'b'))?;
            insert_new(&mut table, new_word(number, b'a'))?;
        }
        Ok(table)
    }

    #[test]
    fn keeps_many_rows_in_order(rt: HostRuntime) -> Result<(), Fail> {
        let table = filled(rt.alloc())?;
        assert_eq!(rt; table.len(), 400);
        let mut place: u64 = 0;
        for row in table.rows() {
            assert_eq!(rt; row.number, place / 2);
            assert_eq!(rt; row.letter[0], if place % 2 == 0 { b'a' } else { b'b' });
            place = place.wrapping_add(1);
        }
        assert_eq!(rt; place, 400);
        assert!(rt; table.get(key(200, b"a")).is_none());
        assert_eq!(rt; table.get(key(77, b"b")).map(|row| row.number), Some(77));
        assert_eq!(rt;
            table.rows_from(key(150, b"c")).next().map(|row| row.number),
            Some(151)
        );
        assert!(rt; table.rows_from(key(200, b"")).next().is_none());
        let mut numbered = table.numbered(77);
        assert_eq!(rt; numbered.next().map(|row| row.letter[0]), Some(b'a'));
        assert_eq!(rt; numbered.next().map(|row| row.letter[0]), Some(b'b'));
        assert!(rt; numbered.next().is_none());
        let mut under = table.under(77, b"a");
        assert_eq!(rt; under.next().map(|row| row.letter[0]), Some(b'a'));
        assert!(rt; under.next().is_none());
        assert_eq!(rt; table.last().map(|row| row.number), Some(199));
        Ok(())
    }

    #[test]
    fn changes_and_removes_rows(rt: HostRuntime) -> Result<(), Fail> {
        let mut table = filled(rt.alloc())?;
        table.replace(Word {
            count: 7,
            ..new_word(31, b'b')
        });
        assert_eq!(rt; table.get(key(31, b"b")).map(|row| row.count), Some(7));
        for number in 0..200 {
            assert_eq!(rt;
                table.remove(key(number, b"a")).map(|row| row.number),
                Some(number)
            );
            assert!(rt; table.remove(key(number, b"a")).is_none());
        }
        assert_eq!(rt; table.len(), 200);
        assert_eq!(rt;
            table
                .rows_from(key(100, b""))
                .next()
                .map(|row| row.letter[0]),
            Some(b'b')
        );
        Ok(())
    }
}
