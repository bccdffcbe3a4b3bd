use conley_json::{Form, JsonError, Written, member, object_member, read_json};
use std::alloc::{AllocError, Global};
use std::test::Fail;

/// The member `a` of the text of an object, in a form; none where the text is no JSON.
fn member_of<T: Form + Drop>(alloc: Global, text: &str) -> Result<Option<T>, AllocError> {
    match read_json(alloc, text.as_bytes()) {
        Ok(value) => member(alloc, &value, "a"),
        Err(_) => Ok(None),
    }
}

#[test]
fn whole_numbers_from_zero(rt: HostRuntime) -> Result<(), Fail> {
    let alloc = rt.alloc();
    let found = [
        member_of::<u32>(alloc, r#"{"a":4294967295}"#)?,
        member_of::<u32>(alloc, r#"{"a":4294967296}"#)?,
        member_of::<u32>(alloc, r#"{"a":1.0}"#)?,
        member_of::<u32>(alloc, r#"{"b":1}"#)?,
    ];
    assert!(rt; found == [Some(u32::MAX), None, None, None]);
    Ok(())
}

#[test]
fn bytes_have_a_range(rt: HostRuntime) -> Result<(), Fail> {
    let alloc = rt.alloc();
    let found = [
        member_of::<u8>(alloc, r#"{"a":255}"#)?,
        member_of::<u8>(alloc, r#"{"a":256}"#)?,
    ];
    assert!(rt; found == [Some(255), None]);
    Ok(())
}

#[test]
fn whole_numbers_with_signs(rt: HostRuntime) -> Result<(), Fail> {
    let alloc = rt.alloc();
    let long = [
        member_of::<i64>(alloc, r#"{"a":-9223372036854775808}"#)?,
        member_of::<i64>(alloc, r#"{"a":9223372036854775808}"#)?,
    ];
    let short = [
        member_of::<i32>(alloc, r#"{"a":-2147483648}"#)?,
        member_of::<i32>(alloc, r#"{"a":2147483648}"#)?,
    ];
    assert!(rt; long == [Some(i64::MIN), None] && short == [Some(i32::MIN), None]);
    Ok(())
}

#[test]
fn lists_have_lengths(rt: HostRuntime) -> Result<(), Fail> {
    let alloc = rt.alloc();
    let pairs = [
        member_of::<(u32, u32)>(alloc, r#"{"a":[1,2]}"#)?,
        member_of::<(u32, u32)>(alloc, r#"{"a":[1,2,3]}"#)?,
    ];
    let triple = member_of::<(u32, u32, i64)>(alloc, r#"{"a":[1,2,-3]}"#)?;
    assert!(rt; pairs == [Some((1, 2)), None] && triple == Some((1, 2, -3)));
    Ok(())
}

#[test]
fn lists_of_texts(rt: HostRuntime) -> Result<(), Fail> {
    let texts = member_of::<Vec<String>>(rt.alloc(), r#"{"a":["x","y"]}"#)?.ok_or("no list")?;
    assert!(rt; texts.len() == 2 && texts[0].as_str() == "x" && texts[1].as_str() == "y");
    Ok(())
}

#[test]
fn objects_are_found_by_name(rt: HostRuntime) -> Result<(), Fail> {
    let value = read_json(rt.alloc(), br#"{"a":{},"b":[]}"#)?;
    let found = ["a", "b", "c"].map(|key| object_member(&value, key).is_some());
    assert!(rt; found == [true, false, false]);
    Ok(())
}

#[test]
fn a_cut_text_is_no_json(rt: HostRuntime) {
    let error = read_json(rt.alloc(), br#"{"a":"#).err();
    assert!(rt; error == Some(JsonError::NotJson));
}

/// A list of triples and a list of pairs with texts, as JSON.
fn written(alloc: Global) -> Result<Vec<u8>, Fail> {
    let triples = Vec::from_slice(alloc, &[(1u32, 2u32, 3u32)])?;
    let mut pairs = Vec::new(alloc);
    pairs.push((String::from_str(alloc, "x")?, 7u8))?;
    Ok((triples, pairs).write(alloc)?.to_vec(alloc)?)
}

#[test]
fn parts_are_written(rt: HostRuntime) -> Result<(), Fail> {
    assert!(rt; written(rt.alloc())?.as_slice() == br#"[[[1,2,3]],[["x",7]]]"#.as_slice());
    Ok(())
}
