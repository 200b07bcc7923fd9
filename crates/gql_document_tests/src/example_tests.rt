//! The examples of sections 2.3 to 2.12 of the October 2021 specification, each with the document
//! that it spells.
use crate::document_tests::first_wrong;
use std::test::Fail;

/// Operations, selection sets, fields, arguments and aliases.
const FIELDS: [(&str, &str); 12] = [
    (
        "mutation {
  likeStory(storyID: 12345) {
    story {
      likeCount
    }
  }
}",
        "single mutation {likeStory(storyID:12345){story{likeCount } } }",
    ),
    ("{\n  field\n}", "single query {field }"),
    (
        "{\n  id\n  firstName\n  lastName\n}",
        "single query {id firstName lastName }",
    ),
    (
        "{
  me {
    id
    firstName
    lastName
    birthday {
      month
      day
    }
    friends {
      name
    }
  }
}",
        "single query {me{id firstName lastName birthday{month day } friends{name } } }",
    ),
    (
        "# `me` could represent the currently logged in viewer.
{
  me {
    name
  }
}",
        "single query {me{name } }",
    ),
    (
        "# `user` represents one of many users in a graph of data, referred to by a
# unique identifier.
{
  user(id: 4) {
    name
  }
}",
        "single query {user(id:4){name } }",
    ),
    (
        "{
  user(id: 4) {
    id
    name
    profilePic(size: 100)
  }
}",
        "single query {user(id:4){id name profilePic(size:100) } }",
    ),
    (
        "{
  user(id: 4) {
    id
    name
    profilePic(width: 100, height: 50)
  }
}",
        "single query {user(id:4){id name profilePic(width:100)(height:50) } }",
    ),
    (
        "{\n  picture(width: 200, height: 100)\n}",
        "single query {picture(width:200)(height:100) }",
    ),
    (
        "{\n  picture(height: 100, width: 200)\n}",
        "single query {picture(height:100)(width:200) }",
    ),
    (
        "{
  user(id: 4) {
    id
    name
    smallPic: profilePic(size: 64)
    bigPic: profilePic(size: 1024)
  }
}",
        "single query {user(id:4){id name smallPic:profilePic(size:64) bigPic:profilePic(size:1024) } }",
    ),
    (
        "{
  zuck: user(id: 4) {
    id
    name
  }
}",
        "single query {zuck:user(id:4){id name } }",
    ),
];

/// Fragments, type conditions and inline fragments.
const FRAGMENTS: [(&str, &str); 6] = [
    (
        "query noFragments {
  user(id: 4) {
    friends(first: 10) {
      id
      name
      profilePic(size: 50)
    }
    mutualFriends(first: 10) {
      id
      name
      profilePic(size: 50)
    }
  }
}",
        "query noFragments{user(id:4){friends(first:10){id name profilePic(size:50) } \
mutualFriends(first:10){id name profilePic(size:50) } } } ",
    ),
    (
        "query withFragments {
  user(id: 4) {
    friends(first: 10) {
      ...friendFields
    }
    mutualFriends(first: 10) {
      ...friendFields
    }
  }
}

fragment friendFields on User {
  id
  name
  profilePic(size: 50)
}",
        "query withFragments{user(id:4){friends(first:10){...friendFields } \
mutualFriends(first:10){...friendFields } } }  \
fragment friendFields on User{id name profilePic(size:50) }",
    ),
    (
        "query withNestedFragments {
  user(id: 4) {
    friends(first: 10) {
      ...friendFields
    }
    mutualFriends(first: 10) {
      ...friendFields
    }
  }
}

fragment friendFields on User {
  id
  name
  ...standardProfilePic
}

fragment standardProfilePic on User {
  profilePic(size: 50)
}",
        "query withNestedFragments{user(id:4){friends(first:10){...friendFields } \
mutualFriends(first:10){...friendFields } } }  \
fragment friendFields on User{id name ...standardProfilePic } \
fragment standardProfilePic on User{profilePic(size:50) }",
    ),
    (
        r#"query FragmentTyping {
  profiles(handles: ["zuck", "coca-cola"]) {
    handle
    ...userFragment
    ...pageFragment
  }
}

fragment userFragment on User {
  friends {
    count
  }
}

fragment pageFragment on Page {
  likers {
    count
  }
}"#,
        r#"query FragmentTyping{profiles(handles:["zuck" "coca-cola" ]){handle ...userFragment ...pageFragment } }  fragment userFragment on User{friends{count } } fragment pageFragment on Page{likers{count } }"#,
    ),
    (
        r#"query inlineFragmentTyping {
  profiles(handles: ["zuck", "coca-cola"]) {
    handle
    ... on User {
      friends {
    count
      }
    }
    ... on Page {
      likers {
    count
      }
    }
  }
}"#,
        r#"query inlineFragmentTyping{profiles(handles:["zuck" "coca-cola" ]){handle ...on User{friends{count } } ...on Page{likers{count } } } } "#,
    ),
    (
        r#"query inlineFragmentNoType($expandedInfo: Boolean) {
  user(handle: "zuck") {
    id
    name
    ... @include(if: $expandedInfo) {
      firstName
      lastName
      birthday
    }
  }
}"#,
        r#"query inlineFragmentNoType($expandedInfo:Boolean){user(handle:"zuck"){id name ...@include(if:$expandedInfo){firstName lastName birthday } } } "#,
    ),
];

/// Strings, null and variables.
const VALUES: [(&str, &str); 4] = [
    (
        r#"mutation {
  sendEmail(message: """
    Hello,
      World!

    Yours,
      GraphQL.
  """)
}"#,
        r#"single mutation {sendEmail(message:"Hello,
  World!

Yours,
  GraphQL.") }"#,
    ),
    (
        r#"mutation {
  sendEmail(message: "Hello,\n  World!\n\nYours,\n  GraphQL.")
}"#,
        r#"single mutation {sendEmail(message:"Hello,
  World!

Yours,
  GraphQL.") }"#,
    ),
    (
        "{\n  field(arg: null)\n  field\n}",
        "single query {field(arg:null) field }",
    ),
    (
        "query getZuckProfile($devicePicSize: Int) {
  user(id: 4) {
    id
    name
    profilePic(size: $devicePicSize)
  }
}",
        "query getZuckProfile($devicePicSize:Int){user(id:4){id name profilePic(size:$devicePicSize) } } ",
    ),
];

#[test]
fn operations_and_fields(rt: HostRuntime) -> Result<(), Fail> {
    assert_eq!(rt; first_wrong(rt.alloc(), &FIELDS, false)?, None);
    Ok(())
}

#[test]
fn fragments(rt: HostRuntime) -> Result<(), Fail> {
    assert_eq!(rt; first_wrong(rt.alloc(), &FRAGMENTS, false)?, None);
    Ok(())
}

#[test]
fn values(rt: HostRuntime) -> Result<(), Fail> {
    assert_eq!(rt; first_wrong(rt.alloc(), &VALUES, false)?, None);
    Ok(())
}
