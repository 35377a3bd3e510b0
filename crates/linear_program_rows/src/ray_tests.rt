//! Worked rays.

ghost use Rattle.std.specs.Prelude.{◌≡◌};
ghost use Rattle.symmetric_matrix.specs.StartVectors.{start_list};
ghost use Rattle.extreme_ray.specs.Rays.{IsRayBasis, vector_size};

use extreme_ray::ray_of;
use std::alloc::Global;
use std::process::Abort;
use symmetric_matrix::{SymInt, VectorList, start_vectors};

fn vectors_of_two(rt: &impl Abort, alloc: Global) -> VectorList
    ensures { result ≡ start_list 2 }
{
    start_vectors(alloc, 2).expect(rt, "memory")
}

fn vectors_of_one(rt: &impl Abort, alloc: Global) -> VectorList
    ensures { result ≡ start_list 1 }
{
    start_vectors(alloc, 1).expect(rt, "memory")
}

fn ray(
    rt: &impl Abort,
    alloc: Global,
    vectors: &VectorList,
    zeros: &[usize],
    leaving: usize,
) -> SymInt
    requires { IsRayBasis (vector_size vectors.now leaving) vectors.now zeros.now leaving }
{
    match ray_of(alloc, vectors, zeros, leaving) {
        Ok(ray) => ray,
        Err(_) => panic!(rt; "no ray"),
    }
}

fn is_of_two(rt: &impl Abort, q: &SymInt, lower: [i128; 3]) {
    assert_eq!(rt; q.n(), 2);
    assert_eq!(rt; [q.get(1, 1), q.get(2, 1), q.get(2, 2)], lower);
}

// The vectors are (0,1), (1,0), (1,1).
#[test]
fn zero_at_two_of_three(rt: HostRuntime) {
    let vectors = vectors_of_two(&rt, rt.alloc());
    is_of_two(&rt, &ray(&rt, rt.alloc(), &vectors, &[1, 2], 0), [0, -1, 2]);
}

#[test]
fn zeros_in_the_other_order(rt: HostRuntime) {
    let vectors = vectors_of_two(&rt, rt.alloc());
    is_of_two(&rt, &ray(&rt, rt.alloc(), &vectors, &[2, 1], 0), [0, -1, 2]);
}

#[test]
fn no_zero_of_one_row(rt: HostRuntime) {
    let q = ray(&rt, rt.alloc(), &vectors_of_one(&rt, rt.alloc()), &[], 0);
    assert_eq!(rt; q.n(), 1);
    assert_eq!(rt; q.get(1, 1), 1);
}
