// Worked arrangements, descents and flips, and a pair that is made greedy.
use crate::{Perm, greedy_pair};
use std::alloc::{AllocError, Global};
use std::test::Fail;

// The simple braid of these generators, each of which multiplies on the right where it can.
fn simple(alloc: Global, letters: &[u32]) -> Result<Perm, AllocError> {
    let mut braid = Perm::identity(alloc, 3)?;
    for letter in letters {
        let i = *letter;
        if 1 <= i && i < braid.strands() && !braid.is_right_descent(i) {
            braid.after(i);
        }
    }
    Ok(braid)
}

// The entries at the first three places.
fn entries(braid: &Perm) -> [u32; 3] {
    if braid.strands() < 3 {
        return [0, 0, 0];
    }
    [braid.at(1), braid.at(2), braid.at(3)]
}

#[test]
fn words_have_their_arrangements(rt: HostRuntime) -> Result<(), Fail> {
    let rows: [(&[u32], [u32; 3]); 5] = [
        (&[1], [2, 1, 3]),
        (&[2], [1, 3, 2]),
        (&[1, 2], [2, 3, 1]),
        (&[2, 1], [3, 1, 2]),
        (&[1, 2, 1], [3, 2, 1]),
    ];
    for (letters, wanted) in rows.into_iter() {
        assert_eq!(rt; entries(&simple(rt.alloc(), letters)?), wanted);
    }
    Ok(())
}

#[test]
fn descents_and_flips_are_those_of_the_arrangement(rt: HostRuntime) -> Result<(), Fail> {
    let rows: [(&[u32], [bool; 4], [u32; 3]); 2] = [
        (&[1, 2], [true, false, false, true], [3, 1, 2]),
        (&[2, 1], [false, true, true, false], [2, 3, 1]),
    ];
    for (letters, descents, flipped) in rows.into_iter() {
        let mut braid = simple(rt.alloc(), letters)?;
        if braid.strands() == 3 {
            let left = [braid.is_left_descent(1), braid.is_left_descent(2)];
            let right = [braid.is_right_descent(1), braid.is_right_descent(2)];
            assert_eq!(rt; [left[0], left[1], right[0], right[1]], descents);
        }
        braid.flip();
        assert_eq!(rt; entries(&braid), flipped);
    }
    Ok(())
}

#[test]
fn identity_and_delta_stand_on_up_to_64_strands(rt: HostRuntime) -> Result<(), Fail> {
    for n in [2, 3, 16, 17, 64].into_iter() {
        if n < 2 || n > 64 {
            continue;
        }
        let identity = Perm::identity(rt.alloc(), n)?;
        let delta = Perm::delta(rt.alloc(), n)?;
        let copy = delta.copy(rt.alloc())?;
        assert_eq!(rt; (identity.at(1), identity.at(n)), (1, n));
        assert_eq!(rt; (delta.at(1), delta.at(n)), (n, 1));
        assert!(rt; identity.is_identity() && !identity.is_delta());
        assert!(rt; delta.is_delta() && delta.same(&copy) && !delta.same(&identity));
    }
    Ok(())
}

#[test]
fn a_pair_is_made_greedy_once(rt: HostRuntime) -> Result<(), Fail> {
    let mut first = simple(rt.alloc(), &[1])?;
    let mut second = simple(rt.alloc(), &[2, 1])?;
    if first.strands() == second.strands() {
        assert!(rt; greedy_pair(&mut first, &mut second));
        assert_eq!(rt; entries(&first), [3, 2, 1]);
        assert!(rt; second.is_identity());
    }
    if first.strands() == second.strands() {
        assert!(rt; !greedy_pair(&mut first, &mut second));
    }
    Ok(())
}
