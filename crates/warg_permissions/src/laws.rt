//! Laws of the permissions of both kinds: when they are equal, and how they print, whatever options they are printed
//! under.

ghost use Rattle.std.specs.Prelude.{◌≡◌, ◌↔◌, true};
ghost use Rattle.std.specs.Fmt.{WritesOnOk, WritesStyledOnOk};
ghost use Rattle.warg_permissions.specs.OperatorPermissions as in_operator;
ghost use Rattle.warg_permissions.specs.PackagePermissions as in_package;
ghost use Rattle.warg_permissions.specs.declared.operator.Permission.{Permission as OperatorPermission};
ghost use Rattle.warg_permissions.specs.declared.package.Permission.{Permission as PackagePermission};
ghost use Rattle.warg_permissions.specs.declared.permission.InvalidPermission.{InvalidPermission};
ghost use Rattle.warg_permissions.specs.declared.permission.PermissionParseError.{PermissionParseError};

use crate::{InvalidPermission, PermissionParseError, operator, package};
use std::fmt::{Display, Formatter, Result, Write};

/// When `==` is true: exactly where both are identical, of the permissions of each kind of log, and of why a number or a
/// text names none.
pub fn equality()
    ensures package_permissions { (a b : PackagePermission) →
        (⟦<package::Permission as PartialEq>⟧.eq a b ≡ true) ↔ (a ≡ b) }
    ensures operator_permissions { (a b : OperatorPermission) →
        (⟦<operator::Permission as PartialEq>⟧.eq a b ≡ true) ↔ (a ≡ b) }
    ensures permission_errors { (a b : PermissionParseError) →
        (⟦<PermissionParseError as PartialEq>⟧.eq a b ≡ true) ↔ (a ≡ b) }
    ensures invalid_permissions { (a b : InvalidPermission) →
        (⟦<InvalidPermission as PartialEq>⟧.eq a b ≡ true) ↔ (a ≡ b) }
{}

/// A permission of a package log prints as its name.
pub fn print_package_permission<W: Write>(
    permission: &package::Permission,
    f: &mut Formatter<W>,
) -> Result
    ensures plain { WritesOnOk W.write_str_gives f.old result
        (in_package.permission_text permission.now) f.new }
    ensures styled { WritesStyledOnOk W.write_str_gives f.old result
        (in_package.permission_text permission.now) f.new }
{
    permission.fmt(f)
}

/// A permission of an operator log prints as its name.
pub fn print_operator_permission<W: Write>(
    permission: &operator::Permission,
    f: &mut Formatter<W>,
) -> Result
    ensures plain { WritesOnOk W.write_str_gives f.old result
        (in_operator.permission_text permission.now) f.new }
    ensures styled { WritesStyledOnOk W.write_str_gives f.old result
        (in_operator.permission_text permission.now) f.new }
{
    permission.fmt(f)
}
