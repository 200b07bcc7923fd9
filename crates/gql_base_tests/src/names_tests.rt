//! Names whose places stand in one chain, and names that copies share.
use gql_base::{Copied, Made, Name, Names, Pairs};
use std::alloc::Global;
use std::test::Fail;

/// Names whose hashes have one remainder by 256, so that they all come to one chain.
const OF_ONE_CHAIN: [&str; 40] = [
    "aab", "akd", "auf", "bem", "boo", "byq", "cix", "csz", "cva", "dfh", "dpj", "dzl", "ejs",
    "etu", "fgc", "fqe", "gal", "gkn", "gup", "hew", "hoy", "ibg", "ili", "ivk", "jfr", "jpt",
    "jzv", "kcb", "kmd", "kwf", "lgm", "lqo", "mav", "mkx", "muz", "mxa", "nhh", "nrj", "obq",
    "ols",
];

/// Adds a name, unless it is there.
fn add(alloc: Global, names: &mut Names, name: &str) -> Made<()> {
    match names.place_of(name) {
        Some(_) => Ok(()),
        None => names.add_fresh(Name::new(alloc, name)?),
    }
}

/// These names, each once.
fn names_of(alloc: Global, all: &[&str]) -> Made<Names> {
    let mut names = Names::new(alloc);
    for name in all {
        add(alloc, &mut names, name)?;
    }
    Ok(names)
}

/// Whether each of these names is found at its place, and another nowhere.
fn are_found(names: &Names, all: &[&str]) -> bool {
    for (place, name) in all.iter().enumerate() {
        if names.place_of(name) != Some(place) {
            return false;
        }
    }
    names.len() == all.len() && names.place_of("zzz") == None
}

#[test]
fn names_of_one_chain_are_found(rt: HostRuntime) -> Result<(), Fail> {
    let names = names_of(rt.alloc(), &OF_ONE_CHAIN)?;
    assert!(rt; are_found(&names, &OF_ONE_CHAIN));
    Ok(())
}

/// A copy of names that are shared, with one name more.
fn copy_with(alloc: Global, names: &Names, name: &str) -> Made<Names> {
    let mut copy = names.try_clone(alloc)?;
    add(alloc, &mut copy, name)?;
    Ok(copy)
}

/// How many names there are of three that are shared with a copy, which has one more.
fn shared_and_copied(alloc: Global) -> Made<(usize, usize)> {
    let names = names_of(alloc, &["a", "b", "c"])?.shared(alloc)?;
    let more = copy_with(alloc, &names, "d")?.len();
    let own = names.into_vec(alloc)?.len();
    Ok((own, more))
}

#[test]
fn a_copy_of_shared_names_grows_alone(rt: HostRuntime) -> Result<(), Fail> {
    assert!(rt; shared_and_copied(rt.alloc())? == (3, 4));
    Ok(())
}

/// Two pairs whose names are shared, taken apart and put together again.
fn put_together(alloc: Global) -> Made<Pairs<u64>> {
    let mut pairs = Pairs::new(alloc);
    pairs.add(Name::new(alloc, "a")?, 1)?;
    pairs.add(Name::new(alloc, "b")?, 2)?;
    let (names, values) = pairs.shared(alloc)?.into_parts();
    Ok(Pairs::from_parts(names, values))
}

#[test]
fn pairs_are_put_together_of_their_parts(rt: HostRuntime) -> Result<(), Fail> {
    let pairs = put_together(rt.alloc())?;
    assert!(rt; pairs.get("a") == Some(&1) && pairs.get("b") == Some(&2));
    Ok(())
}
