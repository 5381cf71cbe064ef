// The worked examples, and tests over several layers.
#![tactic(auto)]

ghost use Rattle.examples.specs.Worked.{WorkedExamplesGiven};

// Carries the theorem that the definitions give every worked example, and does nothing.
pub fn definitions_give_the_worked_examples()
    ensures { WorkedExamplesGiven }
{}

#[cfg(test)]
mod tests {
    use code::{admit, entry, pairs, place};
    use listing::answer;
    use lists::{Place, Request};
    use refusal::Refusal;
    use std::test::Fail;

    // An entry of a caller's list that no reading list has.
    const BLANK: Place = Place {
        box_number: 77,
        row: 77,
    };

    #[test]
    fn pairs_at_the_edge(rt: HostRuntime) {
        let taken = [(2, 2), (2, 11), (3, 2), (3, 7), (4, 2), (4, 6)];
        for (m, k) in taken {
            assert!(rt; admit(m, k).is_ok());
        }
        let refused = [
            (2, 12),
            (3, 8),
            (4, 7),
            (1, 5),
            (5, 2),
            (2, 1),
            (0, 0),
            (2, 0),
            (3, usize::MAX),
            (usize::MAX, 2),
        ];
        for (m, k) in refused {
            assert_eq!(rt; admit(m, k), Err(Refusal::PairNotAdmitted));
            assert_eq!(rt; place(m, k, 0, 0, 0), Err(Refusal::PairNotAdmitted));
        }
        assert!(rt; pairs().len() == 21);
    }

    #[test]
    fn places_and_their_refusals(rt: HostRuntime) {
        let cases = [
            // raising would give 8 and 6
            ((3, 3, 1, 1, 5), Ok(2)),
            ((3, 3, 1, 2, 5), Ok(1)),
            ((4, 6, 3, 5, 1023), Ok(0)),
            ((2, 11, 1, 10, 1023), Ok(0)),
            ((2, 11, 0, 10, 1023), Ok(1023)),
            ((2, 11, 1, 0, 1023), Ok(1023)),
            ((3, 7, 3, 0, 0), Err(Refusal::IndexOutOfRange)),
            ((3, 7, 0, 7, 0), Err(Refusal::IndexOutOfRange)),
            ((3, 7, 0, 0, 729), Err(Refusal::IndexOutOfRange)),
            ((3, 7, 2, 6, 728), Ok(0)),
            // the pair is tried before the indices
            ((3, 8, 3, 8, 9999), Err(Refusal::PairNotAdmitted)),
        ];
        for ((m, k, i, j, y), answer) in cases {
            assert_eq!(rt; place(m, k, i, j, y), answer);
        }
    }

    #[test]
    fn entries_and_their_refusals(rt: HostRuntime) {
        let cases = [
            ((3, 3, 1, 5, 1, 2), Ok(true)),
            ((3, 3, 1, 5, 1, 8), Ok(false)),
            ((3, 3, 0, 5, 2, 5), Ok(true)),
            ((3, 3, 0, 5, 2, 9), Err(Refusal::IndexOutOfRange)),
            ((3, 3, 0, 9, 2, 5), Err(Refusal::IndexOutOfRange)),
            ((3, 3, 3, 5, 2, 5), Err(Refusal::IndexOutOfRange)),
            ((3, 3, 0, 5, 3, 5), Err(Refusal::IndexOutOfRange)),
            ((5, 3, 9, 9, 9, 9), Err(Refusal::PairNotAdmitted)),
        ];
        for ((m, k, i, y, j, x), answer) in cases {
            assert_eq!(rt; entry(m, k, i, y, j, x), answer);
        }
    }

    #[test]
    fn counts_and_their_refusals(rt: HostRuntime) {
        let cases = [
            ((2, 11, 10, 1), Ok(6144)),
            ((2, 11, 12, 0), Ok(11264)),
            ((3, 7, 0, 2), Ok(2187)),
            ((4, 6, 5, 3), Ok(2304)),
            ((4, 6, 9, 0), Ok(6144)),
            ((4, 6, 0, 4), Err(Refusal::NoSuchList)),
            ((4, 6, 5, 4), Err(Refusal::NoSuchList)),
            ((4, 6, 6, 1), Err(Refusal::NoSuchList)),
            ((4, 6, 10, 0), Err(Refusal::NoSuchBox)),
            // the box is tried before the list, and the pair before the box
            ((4, 6, 10, 9), Err(Refusal::NoSuchBox)),
            ((4, 7, 99, 99), Err(Refusal::PairNotAdmitted)),
        ];
        for ((m, k, lost, list), answer) in cases {
            assert_eq!(rt; Request { m, k, lost, list }.count(), answer);
        }
    }

    #[test]
    fn lists_fill_what_they_need(rt: HostRuntime) {
        let mut places = [BLANK; 10];
        let request = Request {
            m: 2,
            k: 3,
            lost: 0,
            list: 1,
        };
        assert_eq!(rt; request.list(&mut places), Ok(8));
        let filled = [
            (1, 2),
            (1, 3),
            (2, 2),
            (2, 3),
            (3, 2),
            (3, 3),
            (4, 0),
            (4, 1),
            (77, 77),
            (77, 77),
        ];
        assert_eq!(rt;
            places,
            filled.map(|(box_number, row)| Place { box_number, row })
        );
    }

    #[test]
    fn refused_lists_change_nothing(rt: HostRuntime) {
        let cases = [
            ((2, 3, 1, 0), Refusal::TooShort),
            ((2, 3, 1, 2), Refusal::NoSuchList),
            ((2, 3, 5, 2), Refusal::NoSuchBox),
            ((2, 1, 5, 2), Refusal::PairNotAdmitted),
        ];
        for ((m, k, lost, list), refusal) in cases {
            let mut places = [BLANK; 7];
            assert_eq!(rt;
                Request { m, k, lost, list }.list(&mut places),
                Err(refusal)
            );
            assert!(rt; places.iter().all(|place| *place == BLANK));
        }
    }

    #[test]
    fn the_program_answers_each_input(rt: HostRuntime) -> Result<(), Fail> {
        let cases = [
            ("2 2 0 1\n", "box row\n1 1\n2 1\n3 0\nblocks 3\n"),
            (
                "00002 02 00003 0\n",
                "box row\n0 0\n0 1\n1 0\n1 1\nblocks 4\n",
            ),
            ("2 2 3 1\n", "refused 16\n"),
            ("3 2 1 3\n", "refused 16\n"),
            ("2 2 4 9\n", "refused 8\n"),
            ("5 2 0 0\n", "refused 2\n"),
            ("99999 99999 99999 99999\n", "refused 2\n"),
            ("", "refused 19\n"),
            ("\n", "refused 19\n"),
            ("2 2 0 1", "refused 19\n"),
            ("2 2 0 1\n\n", "refused 19\n"),
            ("2 2 0 1\r\n", "refused 19\n"),
            ("2\t2 0 1\n", "refused 19\n"),
            ("2  2 0 1\n", "refused 19\n"),
            (" 2 2 0 1\n", "refused 19\n"),
            ("2 2 0 1 \n", "refused 19\n"),
            ("2 2 0\n", "refused 19\n"),
            ("2 2 0 1 0\n", "refused 19\n"),
            ("2 2 0 000001\n", "refused 19\n"),
            ("2 2 0 -1\n", "refused 19\n"),
            ("2 2 0 +1\n", "refused 19\n"),
            ("2 2 0 1a\n", "refused 19\n"),
        ];
        for (input, text) in cases {
            assert_eq!(rt;
                answer(rt.alloc(), input.as_bytes())?.as_str(),
                text,
                "{}",
                input
            );
        }
        Ok(())
    }
}
