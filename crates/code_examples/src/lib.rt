// The worked examples of docs/CODES.md and docs/LISTING.md, run.
#![tactic(auto)]

#[cfg(test)]
mod tests {
    use code::{CodeFault, Listing, WORKSPACE, check, list, pick, write};
    use fault::{Layer, Refusal};
    use field::{BinaryField, PrimeField};
    use plan::{Parameters, Plan};
    use std::test::Fail;

    // The plan that is asked for.
    fn made(asked: Parameters, support: &[u16], multipliers: &[u16]) -> Result<Plan, Fail> {
        let mut plan = Plan::starting();
        plan.make(asked, support, multipliers)
            .map_err(|_| Fail::new("no plan"))?;
        Ok(plan)
    }

    // The field of p elements.
    fn prime(p: usize) -> Result<PrimeField, Fail> {
        PrimeField::new(p).map_err(|_| Fail::new("no field"))
    }

    #[test]
    fn seven_elements(rt: HostRuntime) -> Result<(), Fail> {
        let asked = Parameters {
            size: 7,
            n: 7,
            t: 4,
            w: 2,
            k: 1,
            l: 2,
        };
        let plan = made(asked, &[0, 1, 2, 3, 4, 5, 6], &[1, 1, 1, 1, 1, 1, 1])?;
        let field = prime(7)?;
        let mut place = [9u16; 8];
        assert_eq!(rt; write(&plan, &field, &[1, 2, 1], &mut place), Ok(()));
        assert_eq!(rt; place, [1, 2, 1, 5, 0, 0, 5, 9]);
        assert_eq!(rt; check(&plan, &field, &place[0..7]), Ok(true));
        assert_eq!(rt; check(&plan, &field, &[1, 2, 1, 5, 0, 0, 6]), Ok(false));
        Ok(())
    }

    #[test]
    fn two_letters(rt: HostRuntime) -> Result<(), Fail> {
        let asked = Parameters {
            size: 4,
            n: 4,
            t: 2,
            w: 1,
            k: 1,
            l: 2,
        };
        let plan = made(asked, &[0, 1, 2, 3], &[1, 1, 1, 1])?;
        let field = BinaryField::new(2, false).map_err(|_| Fail::new("no field"))?;
        let mut place = [9u16; 4];
        assert_eq!(rt;
            write(&plan, &field, &[0, 1], &mut place),
            Err(CodeFault::Content)
        );
        assert_eq!(rt; place, [9, 9, 9, 9]);
        assert_eq!(rt; write(&plan, &field, &[1, 1], &mut place), Ok(()));
        assert_eq!(rt; place, [1, 1, 1, 1]);
        Ok(())
    }

    // The plan over five elements that is asked for below: lists of at most two words, which differ from the word heard
    // at two places at most.
    fn five_plan() -> Result<Plan, Fail> {
        let asked = Parameters {
            size: 5,
            n: 5,
            t: 3,
            w: 2,
            k: 1,
            l: 3,
        };
        made(asked, &[0, 1, 2, 3, 4], &[1, 1, 1, 1, 1])
    }

    // How many words were listed. How many candidates were tested is left out: no example can foretell it.
    fn listed(answer: Result<Listing, CodeFault>) -> Result<usize, CodeFault> {
        answer.map(|listing| listing.words)
    }

    #[test]
    fn two_words_and_none(rt: HostRuntime) -> Result<(), Fail> {
        let plan = five_plan()?;
        let field = prime(5)?;
        let mut words = [9u16; 12];
        let mut workspace = [9u16; WORKSPACE];
        let answer = list(&plan, &field, &[0, 0, 0, 1, 2], &mut words, &mut workspace);
        assert_eq!(rt; listed(answer), Ok(2));
        assert_eq!(rt; words, [0, 0, 0, 0, 0, 3, 4, 0, 1, 2, 9, 9]);
        assert_eq!(rt; pick(&words, 5, 1), Ok([3, 4, 0, 1, 2].as_slice()));
        let mut words = [9u16; 12];
        let answer = list(&plan, &field, &[0, 1, 4, 4, 1], &mut words, &mut workspace);
        assert_eq!(rt; listed(answer), Ok(0));
        assert_eq!(rt; words, [9; 12]);
        Ok(())
    }

    #[test]
    fn two_words_of_seven(rt: HostRuntime) -> Result<(), Fail> {
        let asked = Parameters {
            size: 7,
            n: 7,
            t: 4,
            w: 3,
            k: 4,
            l: 8,
        };
        let plan = made(asked, &[0, 1, 2, 3, 4, 5, 6], &[1, 1, 1, 1, 1, 1, 1])?;
        let field = prime(7)?;
        let mut words = [9u16; 49];
        let mut workspace = [9u16; WORKSPACE];
        let heard = [1, 1, 1, 1, 0, 0, 5];
        let answer = list(&plan, &field, &heard, &mut words, &mut workspace);
        assert_eq!(rt; listed(answer), Ok(2));
        assert_eq!(rt; &words[0..7], [1, 1, 1, 1, 1, 1, 1].as_slice());
        assert_eq!(rt; &words[7..14], [1, 2, 1, 5, 0, 0, 5].as_slice());
        assert_eq!(rt; &words[14..49], [9; 35].as_slice());
        Ok(())
    }

    // The refusal of a listing with so much room for the list and for the work, where both are left as they were.
    fn refusal(
        plan: &Plan,
        field: &PrimeField,
        heard: &[u16],
        room: usize,
        work: usize,
    ) -> Option<Refusal> {
        let room = room.min(10);
        let work = work.min(WORKSPACE);
        let mut words = [9u16; 10];
        let mut workspace = [9u16; WORKSPACE];
        let answer = list(
            plan,
            field,
            heard,
            &mut words[0..room],
            &mut workspace[0..work],
        );
        let kept = words == [9; 10] && workspace == [9; WORKSPACE];
        match answer {
            Err(fault) if kept => Some(fault.into()),
            _ => None,
        }
    }

    fn code_refusal(number: u8, place: usize) -> Option<Refusal> {
        Some(Refusal {
            number,
            layer: Layer::Code,
            place,
        })
    }

    // Each listing could be refused for every later reason too, but the first one is given.
    #[test]
    fn refused_listings(rt: HostRuntime) -> Result<(), Fail> {
        let plan = five_plan()?;
        let five = prime(5)?;
        let seven = prime(7)?;
        let heard = [0, 0, 0, 1, 2];
        assert_eq!(rt;
            refusal(&plan, &seven, &[0, 9], 9, 32767),
            code_refusal(20, 0)
        );
        assert_eq!(rt;
            refusal(&plan, &five, &[0, 9], 9, 32767),
            code_refusal(10, 0)
        );
        assert_eq!(rt;
            refusal(&plan, &five, &[0, 1, 5, 1, 7], 9, 32767),
            code_refusal(11, 2)
        );
        assert_eq!(rt;
            refusal(&plan, &five, &heard, 9, 32767),
            code_refusal(13, 0)
        );
        assert_eq!(rt;
            refusal(&plan, &five, &heard, 10, 32767),
            code_refusal(14, 0)
        );
        Ok(())
    }
}
