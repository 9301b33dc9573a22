//! Declaration files that the tests of several crates are over.

/// A declaration file of version 1.
pub const FOLDER_FILE: &str = r#"version = 1
permissions = ["zope.View", "zope.Manage"]
expose = ["root"]
[class.Folder]
get = { title = "zope.View", size = "zope.Public" }
set = { title = "zope.Manage" }
[principal.bob]
allow = ["zope.View"]
[principal.eve]
[object.root]
class = "Folder"
fields = { title = "Home", size = 3, secret = "k" }
"#;

/// The same with roles.
pub const ROLES_FILE: &str = r#"version = 2
permissions = ["zope.View", "zope.Manage"]
expose = ["root"]
[class.Folder]
get = { title = "zope.View", size = "zope.Public" }
set = { title = "zope.Manage" }
[principal.bob]
allow = ["zope.View"]
[principal.eve]
roles = ["reader"]
[object.root]
class = "Folder"
fields = { title = "Home", size = 3, secret = "k" }
[role.reader]
permissions = ["zope.View"]
"#;
