// Halls and ways as bytes: what the reader takes back as they are.
ghost use Rattle.std.specs.Prelude.{◌≡◌, ◌≤◌, IfOk};
ghost use Rattle.exact.specs.Points.{corner_of, place_of};
ghost use Rattle.exact.specs.Sides.{CornerNear};
ghost use Rattle.hall.specs.Bytes.{digits};
ghost use Rattle.hall.specs.Format.{corner_bytes, shape_bytes, place_bytes, task_bytes, way_bytes};
ghost use Rattle.hall.specs.Halls.{task_of};
ghost use Rattle.hall.specs.Routes.{places_of};
ghost use Rattle.hall.specs.Shapes.{shape_of};
ghost use Rattle.hall.specs.Writing.{Adds};

use crate::halls::Hall;
use crate::routes::Route;
use crate::shapes::Shape;
use exact::points::{Corner, Place};
use std::alloc::{AllocError, Global};

// Adds the lowest N bytes of a number.
fn write_number<const N: usize>(out: &mut Vec<u8>, n: u64) -> Result<(), AllocError>
    requires { N ≤ 8 }
    ensures { Adds result out.old.items out.new.items (digits N n) }
{
    out.extend_from_slice(&n.to_le_bytes()[..N])
}

fn write_corner(out: &mut Vec<u8>, c: Corner) -> Result<(), AllocError>
    requires { CornerNear 2047 c }
    ensures { Adds result out.old.items out.new.items (corner_bytes (corner_of c)) }
{
    write_number::<2>(out, c.x.cast_unsigned())?;
    write_number::<2>(out, c.y.cast_unsigned())
}

fn write_place(out: &mut Vec<u8>, p: Place) -> Result<(), AllocError>
    ensures { Adds result out.old.items out.new.items (place_bytes (place_of p)) }
{
    write_number::<8>(out, p.x.cast_unsigned())?;
    write_number::<8>(out, p.y.cast_unsigned())?;
    write_number::<8>(out, p.w)
}

fn write_shape(out: &mut Vec<u8>, shape: &Shape<8>) -> Result<(), AllocError>
    ensures { Adds result out.old.items out.new.items (shape_bytes (shape_of shape.now)) }
{
    out.push(shape.count)?;
    for corner in shape.corners() {
        write_corner(out, *corner)?;
    }
    Ok(())
}

impl Hall {
    // The walls, the load, the things in the order of their numbers, the start and the goal.
    pub fn to_bytes(&self, heap: Global) -> Result<Vec<u8>, AllocError>
        ensures { IfOk result (λ v. v.items ≡ task_bytes (task_of self.now)) }
    {
        let mut bytes = Vec::new(heap);
        write_number::<2>(&mut bytes, u64::from(self.wide))?;
        write_number::<2>(&mut bytes, u64::from(self.high))?;
        write_shape(&mut bytes, &self.load)?;
        bytes.push(self.things.len() as u8)?;
        for thing in self.things.values() {
            write_shape(&mut bytes, thing)?;
        }
        write_place(&mut bytes, self.start)?;
        write_place(&mut bytes, self.goal)?;
        Ok(bytes)
    }
}

impl Route {
    // The number of places, and the places.
    pub fn to_bytes(&self, heap: Global) -> Result<Vec<u8>, AllocError>
        ensures { IfOk result (λ v. v.items ≡ way_bytes (places_of self.now)) }
    {
        let mut bytes = Vec::new(heap);
        write_number::<2>(&mut bytes, self.places.len() as u64)?;
        for place in self.places.iter() {
            write_place(&mut bytes, *place)?;
        }
        Ok(bytes)
    }
}
